//! A run that the loss of power cuts short, at some calls of its disk.
ghost use Rattle.std.specs.Prelude.{◌≡◌, ◌≤◌};
ghost use Rattle.jb_journal.specs.declared.options.Commits.TheVariants.{Meanwhile};

use crate::checks::{By, Host};
use crate::journals::{CLOCK, by, formatted, homes};
use crate::workers::{Found, PAIRS, Pairs};
use jb_journal::{BlockSize, MemoryDisk, NotRun, Options, Ran};
use proof_clients::run_until;
use tests_support::check_at;

/// After how many calls of the disk the power is lost: while the journal is opened by the first 34, while the only
/// handle is committed, and not at all.
static CALLS: [u64; 12] = [0, 1, 17, 33, 34, 35, 36, 37, 38, 39, 40, 1000];

/// A journal on a disk is run by such workers up to this many calls of the disk.
fn run_cut(
    rt: &impl Host,
    disk: MemoryDisk,
    calls: u64,
    options: Options,
    pairs: &Pairs,
) -> Result<Ran<Found, MemoryDisk>, NotRun<Found, MemoryDisk>>
    requires workers { (1 ≤ options.workers) × (options.workers ≤ 64) }
    requires commits { options.commits ≡ Meanwhile }
{
    run_until(rt, disk, calls, CLOCK, options, pairs)
}

/// The disk that is left of a new journal which one worker changes up to this many calls, and whether its handle is
/// told to be settled.
fn left_until(rt: &impl Host, calls: u64) -> (MemoryDisk, bool) {
    let disk = formatted(&By(rt, rt.alloc()), BlockSize::OneKib);
    match run_cut(rt, disk, calls, by(1), &PAIRS) {
        Ok(Ran { disk, settled, .. }) => (disk, settled == 1),
        Err(NotRun { disk, .. }) => (disk, false),
    }
}

/// Checks a run that is cut after this many calls: what a crash leaves has both homes of the handle or none, and both
/// where it is told to be settled.
fn check_cut(rt: &impl Host, calls: u64) {
    let test = By(rt, rt.alloc());
    let (disk, settled) = left_until(rt, calls);
    let found = homes(&test, &disk);
    let is_whole = found == [1, 1, 0, 0, 0, 0, 0, 0, 0, 0];
    let is_so = is_whole || found == [0; 10] && !settled;
    check_at(&test, is_so, "the homes of a run that is cut at", calls);
    check_at(&test, settled || calls < 1000, "no handle, cut at", calls)
}

fn check_cuts(rt: &impl Host) {
    for calls in &CALLS {
        check_cut(rt, *calls);
    }
}

#[test]
fn a_run_that_is_cut_short_at_some_calls(rt: HostRuntime) {
    check_cuts(&rt)
}
