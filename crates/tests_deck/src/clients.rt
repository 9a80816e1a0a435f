//! Each client of proof_clients is run, and the homes of its disk are compared after a recovery.

use crate::cases::{Report, recovers};
use crate::checks::By;
use crate::draws::formatted;
use crate::groups::STAMP;
use crate::images::HOMES;
use crate::scripts::{handles_of, prepared};
use jb_block::{BlockSize, Width};
use jb_deck::{Deck, Prepared, laws};
use jb_disk::{Disk, MemoryDisk};
use jb_handle::Shape;
use proof_clients::{
    Life, Lived, PowerFailure, ask_file, commit_and_close, commit_three, reuse_home, run_lives,
};
use std::alloc::Global;
use std::fs;
use std::fs::File;
use std::process::Abort;
use std::rt::Files;
use tests_support::{
    Bench, Must, Test, check, check_at, opened, read_at, write_at, write_blocks, zeros,
};

/// What the handles of a batch for the journal have to fit.
const SHAPE: Shape = Shape {
    bs: BlockSize::OneKib,
    homes: 16,
    limit: 8,
    width: Width::Narrow,
};

/// A disk with a new journal and homes of zeros.
fn new_disk(test: &impl Bench) -> MemoryDisk {
    formatted(test, 33, 8, [7; 16], Width::Narrow)
}

/// The handles of these lines, with tickets from `first` on, as a batch with its plan.
fn batch(test: &impl Bench, first: u64, lines: &str) -> Prepared {
    let handles = handles_of(test, lines, first);
    prepared(test.alloc(), first, handles, SHAPE).must(test, "a batch")
}

/// Checks the first byte of each of the first four homes. `at` is which of the test's disks it is.
fn check_homes<D: Disk>(test: &impl Test, disk: &mut D, wanted: [u8; 4], at: u64) {
    let mut block = [0; 1024];
    for (home, byte) in wanted.iter().enumerate() {
        read_at(test, disk, HOMES.saturating_add(home as u64), &mut block);
        check_at(test, block[0] == *byte, "the homes of disk", at);
    }
}

/// Checks what a recovery reports, and the homes then.
fn check_recovered<D: Disk>(test: &impl Bench, disk: &mut D, told: Report, wanted: [u8; 4]) {
    check(
        test,
        recovers(test.alloc(), disk, told),
        "what is recovered",
    );
    check_homes(test, disk, wanted, told.3)
}

/// The journal after three batches, of which the first has gone home.
fn after_three(test: &impl Bench) -> Deck<MemoryDisk> {
    let first = batch(test, 0, HANDLES[0]);
    let second = batch(test, 1, HANDLES[1]);
    let third = batch(test, 3, HANDLES[2]);
    let deck = commit_three(test.alloc(), new_disk(test), first, second, third, STAMP);
    deck.must(test, "the third batch is not committed")
}

/// Commits a batch to a new journal, and closes it.
fn closed(test: &impl Bench, first: u64, lines: &str) -> Result<MemoryDisk, MemoryDisk> {
    let batch = batch(test, first, lines);
    commit_and_close(test.alloc(), new_disk(test), batch, STAMP)
}

/// Checks three batches.
fn check_three(test: &impl Bench) {
    let deck = after_three(test);
    check(test, deck.trail().len() == 3, "how many groups");
    let mut disk = deck.close();
    // the first group has gone home, and nothing else
    check_homes(test, &mut disk, [0x11, 0x12, 0, 0], 0);
    check_recovered(test, &mut disk, (2, 3, 0, 6), [0x11, 0x22, 0x23, 0x34])
}

/// Checks a batch that is committed to a journal, which is then closed.
fn check_one(test: &impl Bench) {
    let mut disk = closed(test, 0, TWO_HANDLES).must(test, "the batch is not committed");
    check_homes(test, &mut disk, [0, 0, 0, 0], 1);
    check_recovered(test, &mut disk, (1, 2, 0, 4), [0x41, 0x43, 0, 0])
}

/// Checks a batch that does not begin where the trail ends: it is refused, and the disk is given back.
fn check_late(test: &impl Bench) {
    let late = closed(test, 1, "h w0=41\n").err();
    let mut disk = late.must(test, "a batch of other tickets is committed");
    check_recovered(test, &mut disk, (0, 0, 0, 2), [0, 0, 0, 0])
}

/// Checks a batch for a disk that has no journal: the disk is given back as it was.
fn check_unopened(test: &impl Bench) {
    let mut disk = zeros(test, test.alloc(), BlockSize::OneKib, 49);
    write_at(test, &mut disk, 0, &[0x55; 1024]);
    let given = commit_and_close(test.alloc(), disk, batch(test, 0, TWO_HANDLES), STAMP).err();
    let mut disk = given.must(test, "a batch is committed where there is no journal");
    let mut block = [0; 1024];
    read_at(test, &mut disk, 0, &mut block);
    check(
        test,
        block == [0x55; 1024],
        "block 0 of what has no journal",
    )
}

fn check_closed(test: &impl Bench) {
    check_three(test);
    check_one(test);
    check_late(test);
    check_unopened(test)
}

#[test]
fn three_batches_and_one_that_is_closed(rt: HostRuntime) {
    check_closed(&By(&rt, rt.alloc()))
}

/// What the batches of a journal are, and what its lives commit, one after the other.
static HANDLES: [&str; 3] = ["h w0=11 w1=12\n", "h w1=22\nh w2=23\n", "h w3=34 r0\n"];

/// A batch of two handles, of which the second frees a home.
const TWO_HANDLES: &str = "h w0=41 w1=42\nh w1=43 r2\n";

/// A life: after how many calls of its disk it ends, and with which version of each sector that was not synced then;
/// after how many calls the recovery after it is cut short; and whether it checkpoints a transaction.
type LifeRow = (u64, u32, u64, bool);

/// A life that ends by itself, and one that ends before its first call; neither recovery is cut short.
const WHOLE: LifeRow = (1000, 0, 1000, false);

const AT_ONCE: LifeRow = (0, 0, 1000, false);

/// Lives one after the other, of each whether its handles are reported as committed, and the first bytes of the homes
/// after all of them.
type LivesRow = (&'static [LifeRow], &'static [bool], [u8; 4]);

/// The first bytes of the homes after the handles of the first life, and after those of two.
const ONE: [u8; 4] = [0x11, 0x12, 0, 0];

const TWO: [u8; 4] = [0x11, 0x22, 0x23, 0];

const NONE: [u8; 4] = [0; 4];

static LIVES: [LivesRow; 14] = [
    (&[], &[], NONE),
    (&[WHOLE], &[true], ONE),
    (&[WHOLE, WHOLE], &[true, true], TWO),
    // the power fails in the recovery too: before anything is written, and after a home is
    (
        &[(1000, 0, 0, false), (1000, 0, 0, false)],
        &[true, true],
        TWO,
    ),
    (
        &[(1000, 0, 9, false), (1000, 0, 9, false)],
        &[true, true],
        TWO,
    ),
    (&[WHOLE, AT_ONCE], &[true, false], ONE),
    // while the second batch is committed
    (&[WHOLE, (38, 0, 1000, false)], &[true, false], ONE),
    // before the sync of the first batch's commit block: the block is lost, or left; and after it
    (&[(41, 0, 1000, false)], &[false], NONE),
    (&[(41, 1, 1000, false)], &[false], ONE),
    (&[(42, 0, 1000, false)], &[true], ONE),
    (&[(0, 0, 0, false), (0, 0, 0, false)], &[false, false], NONE),
    // a life that ends at once between two others, the last of which frees a home that the first has written
    (
        &[(1000, 0, 1000, true), AT_ONCE, WHOLE],
        &[true, false, true],
        [0x11, 0x12, 0, 0x34],
    ),
    (
        &[(1000, 0, 9, true), (1000, 0, 0, true), (1000, 0, 9, true)],
        &[true, true, true],
        [0x11, 0x22, 0x23, 0x34],
    ),
    // while the only transaction is checkpointed
    (&[(46, 0, 1000, true)], &[true], ONE),
];

/// How many sectors a disk of the tests has.
const SECTORS: usize = 66;

/// A power failure after this many calls, with this version of each sector that was not synced.
fn failure(test: &impl Bench, calls: u64, version: u32) -> PowerFailure {
    let mut choice = Vec::new(test.alloc());
    for _ in 0..SECTORS {
        choice.push(version).must(test, "memory");
    }
    PowerFailure { calls, choice }
}

/// A further life, by its row, with the handles of these lines.
fn push_life(test: &impl Bench, lives: &mut Vec<Life>, of: &LifeRow, lines: &str) {
    let (end, version, again, checkpoint) = *of;
    let life = Life {
        handles: handles_of(test, lines, 0),
        stamp: STAMP,
        checkpoint,
        end: failure(test, end, version),
        again: failure(test, again, 0),
    };
    lives.push(life).must(test, "memory");
}

/// The lives of these rows.
fn lives_of(test: &impl Bench, rows: &[LifeRow]) -> Vec<Life> {
    let mut lives = Vec::new(test.alloc());
    for (of, lines) in rows.iter().zip(&HANDLES) {
        push_life(test, &mut lives, of, lines);
    }
    lives
}

/// The journal after these lives.
fn after_lives(test: &impl Bench, rows: &[LifeRow]) -> Lived {
    run_lives(test.alloc(), new_disk(test), lives_of(test, rows)).must(test, "a recovery fails")
}

/// Checks the lives of a row.
fn check_lived(test: &impl Bench, of: &LivesRow, row: u64) {
    let (rows, committed, wanted) = *of;
    let mut lived = after_lives(test, rows);
    check_homes(test, &mut lived.disk, wanted, row);
    let are_told = lived.committed.as_slice() == committed;
    check_at(test, are_told, "what is committed in row", row)
}

fn check_lives(test: &impl Bench) {
    laws::chained();
    for (row, of) in LIVES.iter().enumerate() {
        check_lived(test, of, row as u64);
    }
}

#[test]
fn lives_that_end_with_a_crash(rt: HostRuntime) {
    check_lives(&By(&rt, rt.alloc()))
}

/// Checks a home that is freed, written in its place and read, between two batches.
fn check_reuse(test: &impl Bench) {
    let first = batch(test, 0, TWO_HANDLES);
    let second = batch(test, 2, "h w3=34\n");
    let (bytes, mut found) = ([0x77; 1024], [0; 1024]);
    let closed = reuse_home(
        test.alloc(),
        new_disk(test),
        first,
        2,
        &bytes,
        &mut found,
        second,
        STAMP,
    );
    let mut disk = closed.must(test, "a call is refused");
    check(test, found == bytes, "what is read");
    check_recovered(test, &mut disk, (2, 3, 0, 5), [0x41, 0x43, 0x77, 0x34])
}

#[test]
fn a_freed_home_is_written_in_its_place(rt: HostRuntime) {
    check_reuse(&By(&rt, rt.alloc()))
}

/// The file of a journal.
const NAME: &str = "asked.img";

/// Checks a journal in a file: a batch is committed, a home of it is read, and it is written home.
fn check_asked<R: Files<File = File> + Abort>(rt: &R, alloc: Global) {
    let test = By(rt, alloc);
    write_blocks(&test, rt, &mut new_disk(&test), NAME, 0, 49);
    let mut buf = [9; 1024];
    let file = opened(&test, rt, NAME);
    let first = batch(&test, 0, HANDLES[0]);
    let asked = ask_file(alloc, file, BlockSize::OneKib, first, STAMP, 1, &mut buf);
    check(&test, buf[0] == 0x12, "the home that is read");
    let mut disk = asked.must(&test, "a file is no disk");
    check_homes(&test, &mut disk, [0x11, 0x12, 0, 0], 0);
    let _none = fs::remove_file(rt, NAME);
}

#[test]
fn a_journal_in_a_file_is_asked(rt: HostRuntime) {
    check_asked(&rt, rt.alloc())
}
