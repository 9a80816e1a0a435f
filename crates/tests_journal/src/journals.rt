//! New journals on disks, how they are run, and their homes after a crash and a recovery.
ghost use Rattle.std.specs.Prelude.{◌≡◌, ◌≤◌};
ghost use Rattle.jb_journal.specs.declared.options.Commits.TheVariants.{Meanwhile};

use jb_journal::{
    BlockSize, Commits, Delay, FixedClock, MemoryDisk, Options, Stamp, Width, format, recover,
};
use tests_support::{Bench, Must, crashed, read_at, zeros};

/// How many blocks the journal has, which is the place of home block 0; sixteen homes are after it.
const JOURNAL: u32 = 33;

/// The clock of the runs.
pub const CLOCK: FixedClock = FixedClock {
    stamp: Stamp { sec: 0, nsec: 0 },
};

/// A disk in blocks of this size with a new journal.
pub fn formatted(test: &impl Bench, size: BlockSize) -> MemoryDisk {
    let mut disk = zeros(test, test.alloc(), size, 49);
    format(&mut disk, JOURNAL, 0, [0; 16], Width::Narrow).must(test, "no journal is made");
    disk
}

/// How a journal is run by this many workers.
pub fn by(workers: usize) -> Options
    ensures workers { (1 ≤ result.workers) × (result.workers ≤ 64) }
    ensures commits { result.commits ≡ Meanwhile }
{
    Options {
        workers: workers.clamp(1, 64),
        checkpoint: false,
        level: 0,
        delay: Delay::none(),
        commits: Commits::Meanwhile,
    }
}

/// The first byte of each of the first ten homes, once a crash has left the newest of all sectors and the journal is
/// recovered.
pub fn homes(test: &impl Bench, disk: &MemoryDisk) -> [u8; 10] {
    let mut disk = crashed(test, disk, &[]);
    recover(test.alloc(), &mut disk).must(test, "the journal is not recovered");
    let mut found = [0; 10];
    let mut block = [0; 1024];
    for (home, byte) in found.iter_mut().enumerate() {
        let place = u64::from(JOURNAL).saturating_add(home as u64);
        read_at(test, &mut disk, place, &mut block);
        *byte = block[0];
    }
    found
}
