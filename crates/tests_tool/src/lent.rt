//! A disk that a load gives back.
ghost use Rattle.std.specs.Prelude.{[]};
ghost use Rattle.jb_block.specs.Size.{bytes_of};
ghost use Rattle.jb_disk.specs.Faults.{CountsFault};
ghost use Rattle.jb_disk.specs.Lives.{bytes_are_block_size};

use jb_block::BlockSize;
use jb_disk::{Disk, Fault, MemoryDisk};
use std::sync::{Mutex, Wait};
use std::thread;
use std::time::{Clock, Duration};
use tests_support::{read_block, write_block};

/// Which calls of a disk fail, of those that read, write or sync: none, the one of a number, or all from there on.
#[derive(Clone, Copy)]
pub enum Fails {
    Never,
    Once(u64),
    From(u64),
}

impl Fails {
    /// Whether the call of this number fails.
    fn is_at(self, call: u64) -> bool {
        match self {
            Fails::Never => false,
            Fails::Once(number) => call == number,
            Fails::From(number) => call >= number,
        }
    }
}

/// Counts a call, and says whether it fails.
fn is_failing(fails: Fails, calls: &mut u64) -> bool {
    let call = *calls;
    *calls = call.saturating_add(1);
    fails.is_at(call)
}

/// A disk that somebody else keeps. What it holds is known to nobody, so that no clause on contents speaks of it.
#[derive(Drop)]
pub struct LentDisk<'a, R: Wait + Clock> {
    rt: &'a R,
    disk: &'a Mutex<MemoryDisk>,
    size: BlockSize,
    blocks: u64,
    faults: u64,
    /// how many calls have read, written or synced
    calls: u64,
    fails: Fails,
    /// how long a sync takes
    slow: Duration,
}

impl<'a, R: Wait + Clock> LentDisk<'a, R> {
    /// The disk that is kept there, of which these calls fail, and each sync takes so long.
    pub fn of(
        rt: &'a R,
        disk: &'a Mutex<MemoryDisk>,
        fails: Fails,
        slow: Duration,
    ) -> LentDisk<'a, R> {
        let (size, blocks) = {
            let inner = disk.lock(rt);
            (inner.block_size(), inner.blocks())
        };
        LentDisk {
            rt,
            disk,
            size,
            blocks,
            faults: 0,
            calls: 0,
            fails,
            slow,
        }
    }
}

impl<'a, R: Wait + Clock> Disk for LentDisk<'a, R> {
    ghost size = { λ d. bytes_of d.size };

    ghost count = { λ d. d.blocks };

    ghost faults = { λ d. d.faults };

    ghost honest = { λ _. ⊥ };

    ghost newest = { λ _. [] };

    ghost may_leave = { λ _ _. ⊥ };

    ghost moment = { λ _. 0 };

    ghost left_since = { λ _ _ _. ⊥ };

    ghost has_size = { λ d. bytes_are_block_size d.size };

    ghost newest_may_stay = { λ _ honest. absurd honest };

    ghost has_shape = { λ _ _ honest _. absurd honest };

    ghost has_shape_since = { λ _ _ _ honest _. absurd honest };

    ghost counts_now = { λ _ _ _ honest _ _. absurd honest };

    ghost only_now = { λ _ _ honest _. absurd honest };

    fn block_size(&self) -> BlockSize {
        self.size
    }

    fn blocks(&self) -> u64 {
        self.blocks
    }

    fn read(&mut self, place: u64, buf: &mut [u8]) -> Result<(), Fault> {
        let answer = if is_failing(self.fails, &mut self.calls) {
            Err(Fault)
        } else {
            let mut disk = self.disk.lock(self.rt);
            read_block(&mut *disk, place, buf)
        };
        settle(answer, &mut self.faults)
    }

    fn write(&mut self, place: u64, bytes: &[u8]) -> Result<(), Fault> {
        let answer = if is_failing(self.fails, &mut self.calls) {
            Err(Fault)
        } else {
            let mut disk = self.disk.lock(self.rt);
            write_block(&mut *disk, place, bytes)
        };
        settle(answer, &mut self.faults)
    }

    fn sync(&mut self) -> Result<(), Fault> {
        if !self.slow.is_zero() {
            thread::sleep(self.rt, self.slow);
        }
        let answer = if is_failing(self.fails, &mut self.calls) {
            Err(Fault)
        } else {
            self.disk.lock(self.rt).sync()
        };
        settle(answer, &mut self.faults)
    }
}

/// Counts a fault where the call did not succeed.
fn settle(answer: Result<(), Fault>, faults: &mut u64) -> Result<(), Fault>
    ensures { CountsFault result faults.old faults.new }
{
    if answer.is_err() {
        *faults = faults.saturating_add(1);
        return Err(Fault);
    }
    Ok(())
}
