//! Blocks that are read ahead of a walk over a disk.
ghost use Rattle.std.specs.Prelude.{◌≡◌, ◌<◌, ◌≤◌, ℕ, length, OnOk};
ghost use Rattle.jb_block.specs.Size.{bytes_of};
ghost use Rattle.jb_disk.specs.Faults.{CountsFault};
ghost use Rattle.jb_disk.specs.Image.{Image, block, ChangesNothing};
ghost use Rattle.jb_disk.specs.KeptOn.{KeptOn};
ghost use Rattle.jb_disk.specs.ReadAhead.{size_ahead, AreAhead, FitsAhead, IsAhead, IsAheadOf};
ghost use Rattle.jb_disk.specs.Time.{Goes};

use crate::run::RUN_BYTES;
use crate::{Disk, Fault};
use jb_block::BlockSize;

/// A buffer for a walk over blocks in a row: it reads as many of them by one call as it has room for. It is
/// not told of writes: no block may be written that it still has to give.
#[derive(Drop)]
pub struct ReadAhead {
    run: [u8; RUN_BYTES],
    size: BlockSize,
    first: u64,
    count: usize,
}

impl ReadAhead {
    /// A buffer for blocks of this size, which holds none.
    pub fn of(size: BlockSize) -> ReadAhead
        ensures size { size_ahead result ≡ bytes_of size }
        ensures fits { FitsAhead result }
        ensures none { (place : ℕ) (c : Image) → AreAhead place c result }
    {
        ReadAhead {
            run: [0; RUN_BYTES],
            size,
            first: 0,
            count: 0,
        }
    }

    /// Reads the block at `place`, and those after it up to `end` as far as there is room, where it does not
    /// hold that block yet.
    ///
    /// # Errors
    /// A fault of the disk; the walk may go on from the same place.
    pub fn fetch<D: Disk>(&mut self, disk: &mut D, place: u64, end: u64) -> Result<(), Fault>
        requires place { place < end }
        requires ahead { IsAheadOf D.Disk place end self.old disk.old }
        ensures kept { KeptOn D.Disk (CountsFault result) disk.old disk.new }
        ensures held { IsAhead self.old place → (disk.new ≡ disk.old) × (self.new ≡ self.old) }
        ensures holds { OnOk result (IsAhead self.new place) }
        /// With `held`: A walk that reads ahead holds the block that it asks for, as it is in the newest content, and
        /// reads on only where it does not.
        ensures ahead { IsAheadOf D.Disk place end self.new disk.new }
        ensures newest { D.honest disk.new → D.newest disk.new ≡ D.newest disk.old }
        ensures goes { D.honest disk.new → Goes D.may_leave D.moment D.left_since ChangesNothing disk.old disk.new }
    {
        if self.first <= place && place < self.first + self.count as u64 {
            return Ok(());
        }
        let size = self.size.bytes() as usize;
        let count = (end - place).min((RUN_BYTES / size) as u64) as usize;
        self.count = 0;
        disk.read_run(place, count, &mut self.run[..size * count])?;
        self.first = place;
        self.count = count;
        Ok(())
    }

    /// The block at `place`, which it holds.
    pub fn block(&self, place: u64) -> &[u8]
        requires holds { IsAhead self.now place }
        ensures length { length result.now ≡ size_ahead self.now }
        ensures found { (c : Image) → AreAhead place c self.now → result.now ≡ block c place }
    {
        let size = self.size.bytes() as usize;
        let at = size * (place - self.first) as usize;
        &self.run[at..at + size]
    }
}
