//! A disk that fails from some call on, as one that loses its power does.
ghost use Rattle.std.specs.Prelude.{◌≡◌, ◌-◌, ◌==◌, ◌↔◌, is_ok, IsErr};
ghost use Rattle.jb_disk.specs.Faults.{CountsFault, CountsOne, counted};

use crate::{Disk, Failure, Fault};
use jb_block::BlockSize;

/// A disk that passes this many calls on to another, and fails every later one without passing it on.
/// Reads, writes and syncs count; `block_size` and `blocks` do not.
#[derive(Drop)]
pub struct FuseDisk<D: Disk> {
    disk: D,
    left: u64,
    failed: u64,
}

impl<D: Disk> FuseDisk<D> {
    ghost use Rattle.jb_disk.specs.Fuse.{disk_of, left_of, failed_calls};

    /// A disk that passes `calls` calls on to `disk`.
    pub fn of(disk: D, calls: u64) -> FuseDisk<D>
        ensures disk { disk_of result ≡ disk }
        ensures calls { left_of result ≡ calls }
        ensures fresh { failed_calls result ≡ 0 }
    {
        FuseDisk {
            disk,
            left: calls,
            failed: 0,
        }
    }

    /// The disk inside the fuse.
    pub fn into_inner(self) -> D
        ensures { result ≡ disk_of self }
    {
        self.disk
    }
}

impl<D: Disk> Disk for FuseDisk<D> {
    ghost size = { λ f. D.size f.disk };

    ghost count = { λ f. D.count f.disk };

    ghost faults = { λ f. counted (D.faults f.disk) f.failed };

    ghost honest = { λ f. D.honest f.disk };

    ghost newest = { λ f. D.newest f.disk };

    ghost may_leave = { λ f. D.may_leave f.disk };

    ghost moment = { λ f. D.moment f.disk };

    ghost left_since = { λ f. D.left_since f.disk };

    ghost fails_next = { λ f. f.left == 0 };

    ghost use Rattle.jb_disk.specs.Fuse.{Burns};

    ghost own = { λ call old new ok. Burns D.faults D.own call old new ok };

    ghost tells = { λ f. D.tells f.disk };

    ghost has_size = { λ f. D.has_size f.disk };

    ghost newest_may_stay = { λ f. D.newest_may_stay f.disk };

    ghost has_shape = { λ f. D.has_shape f.disk };

    ghost has_shape_since = { λ f. D.has_shape_since f.disk };

    ghost counts_now = { λ f. D.counts_now f.disk };

    ghost only_now = { λ f. D.only_now f.disk };

    fn block_size(&self) -> BlockSize {
        self.disk.block_size()
    }

    fn blocks(&self) -> u64 {
        self.disk.blocks()
    }

    fn failure(&self) -> Option<Failure> {
        self.disk.failure()
    }

    fn read(&mut self, place: u64, buf: &mut [u8]) -> Result<(), Fault> {
        burn(&mut self.left, &mut self.failed)?;
        self.disk.read(place, buf)
    }

    fn write(&mut self, place: u64, bytes: &[u8]) -> Result<(), Fault> {
        burn(&mut self.left, &mut self.failed)?;
        self.disk.write(place, bytes)
    }

    fn sync(&mut self) -> Result<(), Fault> {
        burn(&mut self.left, &mut self.failed)?;
        self.disk.sync()
    }
}

/// Takes one call from those that are left, or counts one that fails.
fn burn(left: &mut u64, failed: &mut u64) -> Result<(), Fault>
    ensures blown { IsErr result ↔ (left.old ≡ 0) }
    ensures left { left.new ≡ left.old - 1 }
    ensures faults { CountsFault result failed.old failed.new }
    ensures one { CountsOne (is_ok result) failed.old failed.new }
{
    if *left == 0 {
        *failed = failed.saturating_add(1);
        return Err(Fault);
    }
    *left -= 1;
    Ok(())
}
