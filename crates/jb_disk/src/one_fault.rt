//! A disk that fails once.
ghost use Rattle.std.specs.Prelude.{◌≡◌, ◌-◌, ◌↔◌, Option, Some, None, IsErr};
ghost use Rattle.jb_disk.specs.Faults.{counted};
ghost use Rattle.jb_disk.specs.Once.{is_next, failures, next_of};

use crate::{Disk, Failure, Fault};
use jb_block::BlockSize;

/// A disk that passes calls on to another, all but one, which fails and is not passed on.
/// Reads, writes and syncs count; `block_size` and `blocks` do not.
#[derive(Drop)]
pub struct OneFaultDisk<D: Disk> {
    disk: D,
    /// How many calls pass before the one that fails; `None` once it has.
    before: Option<u64>,
}

impl<D: Disk> OneFaultDisk<D> {
    ghost use Rattle.jb_disk.specs.OneFault.{disk_within, before_of};

    /// A disk that passes all calls on to `disk` but the one of this number, counted from 0.
    pub fn of(disk: D, call: u64) -> OneFaultDisk<D>
        ensures disk { disk_within result ≡ disk }
        ensures call { before_of result ≡ Some call }
    {
        OneFaultDisk {
            disk,
            before: Some(call),
        }
    }

    /// The disk that calls are passed on to.
    pub fn into_inner(self) -> D
        ensures { result ≡ disk_within self }
    {
        self.disk
    }
}

impl<D: Disk> Disk for OneFaultDisk<D> {
    ghost size = { λ f. D.size f.disk };

    ghost count = { λ f. D.count f.disk };

    ghost faults = { λ f. counted (D.faults f.disk) (failures f.before) };

    ghost honest = { λ f. D.honest f.disk };

    ghost newest = { λ f. D.newest f.disk };

    ghost may_leave = { λ f. D.may_leave f.disk };

    ghost moment = { λ f. D.moment f.disk };

    ghost left_since = { λ f. D.left_since f.disk };

    ghost fails_next = { λ f. is_next f.before };

    ghost use Rattle.jb_disk.specs.OneFault.{Spends};

    ghost own = { λ call old new ok. Spends D.faults D.own call old new ok };

    ghost tells = { λ f. D.tells f.disk };

    ghost has_size = { λ f. D.has_size f.disk };

    ghost newest_may_stay = { λ f. D.newest_may_stay f.disk };

    ghost has_shape = { λ f. D.has_shape f.disk };

    ghost has_shape_since = { λ f. D.has_shape_since f.disk };

    ghost counts_now = { λ f. D.counts_now f.disk };

    ghost only_now = { λ f. D.only_now f.disk };

    fn block_size(&self) -> BlockSize {
        self.disk.block_size()
    }

    fn blocks(&self) -> u64 {
        self.disk.blocks()
    }

    fn failure(&self) -> Option<Failure> {
        self.disk.failure()
    }

    fn read(&mut self, place: u64, buf: &mut [u8]) -> Result<(), Fault> {
        spend(&mut self.before)?;
        self.disk.read(place, buf)
    }

    fn write(&mut self, place: u64, bytes: &[u8]) -> Result<(), Fault> {
        spend(&mut self.before)?;
        self.disk.write(place, bytes)
    }

    fn sync(&mut self) -> Result<(), Fault> {
        spend(&mut self.before)?;
        self.disk.sync()
    }
}

/// Takes one call from those before the one that fails, or fails that one.
fn spend(before: &mut Option<u64>) -> Result<(), Fault>
    ensures fails { IsErr result ↔ (before.old ≡ Some 0) }
    ensures next { before.new ≡ next_of before.old }
{
    match *before {
        Some(0) => {
            *before = None;
            Err(Fault)
        }
        Some(calls) => {
            *before = Some(calls - 1);
            Ok(())
        }
        None => Ok(()),
    }
}
