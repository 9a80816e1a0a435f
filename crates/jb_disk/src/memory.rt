//! A disk in memory. It keeps all its writes and syncs, so that a crash may leave all that a disk may.
ghost use Rattle.std.specs.Prelude.{◌≡◌, ◌<◌, ◌∷◌, [], length, replicate, IfOk, OnOk, OnErr};
ghost use Rattle.jb_block.specs.Size.{bytes_of};
ghost use Rattle.jb_disk.specs.Calls.{steps_of, image_of};
ghost use Rattle.jb_disk.specs.History.{Wrote, Synced, newest_of, MayLeave, LeftSince, IsHistorySound};
ghost use Rattle.jb_disk.specs.Versions.{IsChosen};
ghost use Rattle.jb_disk.specs.Lives.{bytes_are_block_size, newest_stays, left_has_shape};
ghost use Rattle.jb_disk.specs.Lives.{since_has_shape, left_since_now, left_only_now};

use crate::sector::{copy_of, crash_image};
use crate::{Disk, Fault};
use jb_block::{BlockSize, Memory};
use std::alloc::Global;
use std::marker::Model;

/// A disk in memory, for tests and for reading an image that is there already.
#[derive(Drop)]
pub struct MemoryDisk {
    alloc: Global,
    size: BlockSize,
    first: Vec<Vec<u8>>,
    newest: Vec<Vec<u8>>,
    calls: Vec<Call>,
    faults: u64,
}

/// A write or a sync that succeeded.
#[derive(Drop)]
pub(crate) enum Call {
    Write(u64, Vec<u8>),
    Sync,
}

impl Model for MemoryDisk {
    ghost use Rattle.jb_disk.specs.History.{DiskHistory};

    ghost Value = { DiskHistory };

    ghost use Rattle.jb_disk.specs.Memory.{history_of, IsHistoryKept};

    ghost view = { history_of };

    ghost invariant = { IsHistoryKept };
}

impl MemoryDisk {
    /// A disk of this many blocks of zeros. One of no blocks takes no memory.
    ///
    /// # Errors
    ///
    /// `Memory` where there is none for its blocks.
    pub fn new(alloc: Global, size: BlockSize, blocks: u64) -> Result<MemoryDisk, Memory>
        ensures sound { IfOk result IsHistorySound }
        ensures size { IfOk result (λ disk. disk.size ≡ size) }
        ensures count { IfOk result (λ disk. disk.count ≡ blocks) }
        ensures grows { OnErr result (0 < blocks) }
        ensures zeros { IfOk result (λ disk. disk.first ≡ replicate blocks (replicate (bytes_of size) 0)) }
        ensures fresh { IfOk result (λ disk. (disk.steps ≡ []) × (disk.faults ≡ 0)) }
    {
        Ok(MemoryDisk {
            alloc,
            size,
            first: zeros(alloc, size, blocks)?,
            newest: zeros(alloc, size, blocks)?,
            calls: Vec::new(alloc),
            faults: 0,
        })
    }

    /// This disk is honest, whatever it was called for: its first content and each of its writes have its shape. Does
    /// nothing when it runs.
    pub fn always_sound(&self)
        ensures sound { IsHistorySound self.now }
    {
        // for the proof alone: what a value keeps is known once the body reads of it
        let _count = self.first.len();
    }

    /// The disk after a crash at this moment, in which nothing is pending. Of the sectors that have
    /// been written since the last sync the k-th, by place and then within the block, gets its
    /// `choice[k]`-th version, modulo their number; 0, or no number, is what it held at the sync. A disk
    /// of no blocks takes no memory.
    ///
    /// # Errors
    ///
    /// `Memory` where there is none for the blocks of the new disk.
    pub fn crash(&self, choice: &[u32]) -> Result<MemoryDisk, Memory>
        ensures sound { IfOk result IsHistorySound }
        ensures size { IfOk result (λ disk. disk.size ≡ self.now.size) }
        ensures count { IfOk result (λ disk. disk.count ≡ self.now.count) }
        ensures grows { OnErr result (0 < self.now.count) }
        /// A crash of a disk in memory leaves exactly the image of the choice.
        ensures chosen { IfOk result (λ disk. IsChosen self.now choice.now disk.first) }
        ensures allowed { IfOk result (λ disk. MayLeave self.now.first self.now.steps disk.first) }
        ensures fresh { IfOk result (λ disk. (disk.steps ≡ []) × (disk.faults ≡ 0)) }
    {
        let first = crash_image(self.alloc, self.size, &self.first, &self.calls, choice)?;
        let newest = copy_of(self.alloc, &first)?;
        Ok(MemoryDisk {
            alloc: self.alloc,
            size: self.size,
            first,
            newest,
            calls: Vec::new(self.alloc),
            faults: 0,
        })
    }
}

impl Disk for MemoryDisk {
    ghost size = { λ h. bytes_of h.size };

    ghost count = { λ h. h.count };

    ghost faults = { λ h. h.faults };

    ghost honest = { IsHistorySound };

    ghost newest = { newest_of };

    ghost may_leave = { λ h. MayLeave h.first h.steps };

    ghost moment = { λ h. length h.steps };

    ghost left_since = { λ h. LeftSince h.first h.steps };

    ghost use Rattle.jb_disk.specs.OneCall.{CallMakes};

    ghost own = { CallMakes };

    ghost has_size = { λ h. bytes_are_block_size h.size };

    ghost newest_may_stay = { λ h sound.
        newest_stays h.count (bytes_of h.size) h.first h.steps sound.shape sound.whole };

    ghost has_shape = { λ h c sound left.
        left_has_shape h.count (bytes_of h.size) h.first h.steps c sound.shape sound.whole left };

    ghost has_shape_since = { λ h t c sound left.
        since_has_shape h.count (bytes_of h.size) h.first h.steps t c sound.shape sound.whole left };

    ghost counts_now = { λ h t c sound earlier left. left_since_now h.first h.steps t c earlier left };

    ghost only_now = { λ h c sound left. left_only_now h.first h.steps c left };

    fn block_size(&self) -> BlockSize {
        self.size
    }

    fn blocks(&self) -> u64 {
        self.first.len() as u64
    }

    fn read(&mut self, place: u64, buf: &mut [u8]) -> Result<(), Fault> {
        buf.copy_from_slice(&self.newest[place as usize]);
        Ok(())
    }

    fn write(&mut self, place: u64, bytes: &[u8]) -> Result<(), Fault> {
        match note_write(self.alloc, &mut self.calls, place, bytes) {
            Ok(()) => {
                self.newest[place as usize].copy_from_slice(bytes);
                Ok(())
            }
            Err(_) => {
                self.faults = self.faults.saturating_add(1);
                Err(Fault)
            }
        }
    }

    fn sync(&mut self) -> Result<(), Fault> {
        match note_sync(&mut self.calls) {
            Ok(()) => Ok(()),
            Err(_) => {
                self.faults = self.faults.saturating_add(1);
                Err(Fault)
            }
        }
    }
}

/// This many blocks of zeros.
fn zeros(alloc: Global, size: BlockSize, blocks: u64) -> Result<Vec<Vec<u8>>, Memory>
    ensures image { IfOk result (λ image. image_of image.items ≡ replicate blocks (replicate (bytes_of size) 0)) }
    ensures grows { OnErr result (0 < blocks) }
{
    let mut image = Vec::with_capacity(alloc, blocks as usize)?;
    for _place in 0..blocks {
        image.push(vec![in alloc; 0; size.bytes() as usize]?)?;
    }
    Ok(image)
}

/// Keeps one write at the end of the list.
fn note_write(alloc: Global, calls: &mut Vec<Call>, place: u64, bytes: &[u8]) -> Result<(), Memory>
    ensures ok { OnOk result (steps_of calls.new.items ≡ Wrote place bytes.now ∷ steps_of calls.old.items) }
    ensures err { OnErr result (calls.new.items ≡ calls.old.items) }
{
    let copy = bytes.to_vec(alloc)?;
    calls.push(Call::Write(place, copy))?;
    Ok(())
}

/// Keeps one sync at the end of the list.
fn note_sync(calls: &mut Vec<Call>) -> Result<(), Memory>
    ensures ok { OnOk result (steps_of calls.new.items ≡ Synced ∷ steps_of calls.old.items) }
    ensures err { OnErr result (calls.new.items ≡ calls.old.items) }
{
    calls.push(Call::Sync)?;
    Ok(())
}
