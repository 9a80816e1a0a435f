//! Which of the two disks a call reaches, and what comes of one that fails.

use crate::blocks::{fill_run, read_run};
use crate::checks::By;
use jb_block::BlockSize;
use jb_disk::{Disk, Fault, MemoryDisk, OneFaultDisk};
use jb_image::{ImageDisk, PairDisk};
use tests_support::{Bench, Test, check, check_at, crashed, read_block, write_block, zeros};

/// Fills a block with one byte.
fn fill<D: Disk>(disk: &mut D, place: u64, byte: u8) -> Result<(), Fault> {
    write_block(disk, place, &[byte; 1024])
}

/// The first byte of a block.
pub fn look<D: Disk>(disk: &mut D, place: u64) -> Result<u8, Fault> {
    let mut bytes = [0; 1024];
    read_block(disk, place, &mut bytes)?;
    Ok(bytes[0])
}

/// The first bytes of up to four blocks in a row, read by one call.
fn look_run<D: Disk>(disk: &mut D, place: u64, blocks: usize) -> Result<[u8; 4], Fault> {
    let bytes = read_run(disk, place, blocks)?;
    Ok([bytes[0], bytes[1024], bytes[2048], bytes[3072]])
}

/// Whether the two blocks of a disk have these first bytes, and of what a crash leaves at least of it.
fn holds(test: &impl Test, mut disk: MemoryDisk, wanted: [u8; 4]) -> bool {
    let mut left = crashed(test, &disk, &[]);
    let [one, two, kept, last] = wanted;
    look(&mut disk, 0) == Ok(one)
        && look(&mut disk, 1) == Ok(two)
        && look(&mut left, 0) == Ok(kept)
        && look(&mut left, 1) == Ok(last)
}

/// A disk of two blocks of which the call of this number fails.
fn one(test: &impl Bench, call: u64) -> OneFaultDisk<MemoryDisk> {
    OneFaultDisk::of(zeros(test, test.alloc(), BlockSize::OneKib, 2), call)
}

type Both = PairDisk<OneFaultDisk<MemoryDisk>, OneFaultDisk<MemoryDisk>>;

/// Two disks of two blocks each, of which one call may fail.
fn two(test: &impl Bench, front: u64, back: u64) -> Both {
    PairDisk::of(one(test, front), one(test, back))
}

/// Checks what the two disks of a pair hold then and after a crash.
fn check_held(test: &impl Test, disk: Both, first: [u8; 4], second: [u8; 4], row: u64) {
    let (front, back) = disk.into_parts();
    let is_held = holds(test, front.into_inner(), first);
    check_at(test, is_held, "the first disk of row", row);
    let is_held = holds(test, back.into_inner(), second);
    check_at(test, is_held, "the second disk of row", row)
}

/// Which of these succeed: a write of each block of the four, and a sync.
fn five_calls<D: Disk>(disk: &mut D) -> [bool; 5] {
    [
        fill(disk, 0, 1).is_ok(),
        fill(disk, 1, 2).is_ok(),
        fill(disk, 2, 3).is_ok(),
        fill(disk, 3, 4).is_ok(),
        disk.sync().is_ok(),
    ]
}

/// The same disks, whose blocks have 1, 2, 3 and 4.
fn filled(test: &impl Bench, front: u64, back: u64) -> Both {
    let mut disk = two(test, front, back);
    check(test, five_calls(&mut disk) == [true; 5], "five calls");
    disk
}

/// The number of the call that fails of the first disk, and of the second; which of the five calls of the pair
/// succeed; and what each disk holds then and after a crash.
struct Calls(u64, u64, [bool; 5], [u8; 4], [u8; 4]);

const NO_SYNC: [bool; 5] = [true, true, true, true, false];

const NOT_FIRST: [bool; 5] = [false, true, true, true, true];

const NOT_LAST: [bool; 5] = [true, true, true, false, true];

static CALLS: [Calls; 6] = [
    Calls(9, 9, [true; 5], [1, 2, 1, 2], [3, 4, 3, 4]),
    Calls(0, 9, NOT_FIRST, [0, 2, 0, 2], [3, 4, 3, 4]),
    Calls(9, 1, NOT_LAST, [1, 2, 1, 2], [3, 0, 3, 0]),
    Calls(2, 9, NO_SYNC, [1, 2, 0, 0], [3, 4, 0, 0]),
    Calls(9, 2, NO_SYNC, [1, 2, 1, 2], [3, 4, 0, 0]),
    Calls(2, 2, NO_SYNC, [1, 2, 0, 0], [3, 4, 0, 0]),
];

/// Checks the calls of a pair.
fn check_five<D: Disk>(test: &impl Test, disk: &mut D, answers: [bool; 5], row: u64) {
    check_at(test, disk.blocks() == 4, "the blocks of row", row);
    let is_told = five_calls(disk) == answers;
    check_at(test, is_told, "the calls of row", row)
}

/// Checks the calls of a row, and what they leave.
fn check_row(test: &impl Bench, of: &Calls, row: u64) {
    let Calls(front, back, answers, first, second) = *of;
    let mut disk = two(test, front, back);
    check_five(test, &mut disk, answers, row);
    check_held(test, disk, first, second, row)
}

fn check_calls(test: &impl Bench) {
    for (row, of) in CALLS.iter().enumerate() {
        check_row(test, of, row as u64)
    }
}

/// The calls of an image of one disk are those of that disk.
fn check_image(test: &impl Bench) {
    let disk = OneFaultDisk::of(zeros(test, test.alloc(), BlockSize::OneKib, 4), 4);
    let mut image: ImageDisk<OneFaultDisk<MemoryDisk>, MemoryDisk> = ImageDisk::One(disk);
    check(test, five_calls(&mut image) == NO_SYNC, "an image's sync");
    check(test, look(&mut image, 2) == Ok(3), "an image's block")
}

fn check_each(test: &impl Bench) {
    check_calls(test);
    check_image(test)
}

#[test]
fn each_call_reaches_its_disk(rt: HostRuntime) {
    check_each(&By(&rt, rt.alloc()))
}

/// A place and how many blocks, their first bytes, and whether their read is one of the first disk, and of the second.
struct Read(u64, usize, [u8; 4], bool, bool);

static READ: [Read; 5] = [
    Read(0, 2, [1, 2, 0, 0], true, false),
    Read(1, 2, [2, 3, 0, 0], true, true),
    Read(2, 2, [3, 4, 0, 0], false, true),
    Read(3, 1, [4, 0, 0, 0], false, true),
    Read(0, 4, [1, 2, 3, 4], true, true),
];

/// What a run of a row is read as, from disks of which one call may fail.
fn read_of(test: &impl Bench, front: u64, back: u64, of: &Read) -> Result<[u8; 4], Fault> {
    look_run(&mut filled(test, front, back), of.0, of.1)
}

/// Checks the run of a row, and a fault of either disk.
fn check_run(test: &impl Bench, of: &Read, row: u64) {
    let is_read = read_of(test, 9, 9, of) == Ok(of.2);
    check_at(test, is_read, "the run of row", row);
    let is_fault = read_of(test, 3, 9, of).is_err();
    check_at(test, is_fault == of.3, "a first fault at", row);
    let is_fault = read_of(test, 9, 3, of).is_err();
    check_at(test, is_fault == of.4, "a second fault at", row)
}

/// A run of blocks is read from the disk that has them, or from both; and a call of either may fail.
fn check_read(test: &impl Bench) {
    for (row, of) in READ.iter().enumerate() {
        check_run(test, of, row as u64)
    }
}

#[test]
fn a_run_is_read_where_its_blocks_are(rt: HostRuntime) {
    check_read(&By(&rt, rt.alloc()))
}

/// A place and how many blocks, the number of the call that fails of each disk, whether the write succeeds, and the
/// four blocks then.
struct Written(u64, usize, u64, u64, bool, [u8; 4]);

static WRITTEN: [Written; 8] = [
    Written(0, 2, 9, 9, true, [5, 6, 0, 0]),
    Written(1, 2, 9, 9, true, [0, 5, 6, 0]),
    Written(2, 2, 9, 9, true, [0, 0, 5, 6]),
    Written(3, 1, 9, 9, true, [0, 0, 0, 5]),
    Written(0, 4, 9, 9, true, [5, 6, 7, 8]),
    Written(0, 4, 1, 9, false, [5, 0, 0, 0]),
    Written(1, 3, 9, 0, false, [0, 5, 0, 0]),
    Written(1, 3, 9, 1, false, [0, 5, 6, 0]),
];

/// Checks the run of a row, and what is left.
fn check_run_written(test: &impl Bench, of: &Written, row: u64) {
    let Written(place, blocks, front, back, written, held) = *of;
    let mut disk = two(test, front, back);
    let is_written = fill_run(&mut disk, place, blocks, 5).is_ok();
    check_at(test, is_written == written, "the write of row", row);
    let first = [held[0], held[1], 0, 0];
    check_held(test, disk, first, [held[2], held[3], 0, 0], row)
}

/// A run of blocks is written to the disk that has them, or to both, the first disk's first.
fn check_written(test: &impl Bench) {
    for (row, of) in WRITTEN.iter().enumerate() {
        check_run_written(test, of, row as u64)
    }
}

#[test]
fn a_run_is_written_where_its_blocks_are(rt: HostRuntime) {
    check_written(&By(&rt, rt.alloc()))
}

/// Checks the four blocks of a pair, after which there is none.
fn check_looks<D: Disk>(test: &impl Test, disk: &mut D) {
    for byte in 1..5u8 {
        let place = u64::from(byte) - 1;
        let is_read = look(disk, place) == Ok(byte);
        check_at(test, is_read, "the block at place", place)
    }
    check(test, look(disk, 4) == Err(Fault), "a block after them")
}

/// A block is read from the disk that has it; one of another size is not there.
fn check_blocks(test: &impl Bench) {
    check_looks(test, &mut filled(test, 9, 9));
    let front = zeros(test, test.alloc(), BlockSize::OneKib, 2);
    let back = zeros(test, test.alloc(), BlockSize::TwoKib, 2);
    check(test, PairDisk::of(front, back).blocks() == 2, "two sizes")
}

#[test]
fn blocks_are_read_where_they_are(rt: HostRuntime) {
    check_blocks(&By(&rt, rt.alloc()))
}
