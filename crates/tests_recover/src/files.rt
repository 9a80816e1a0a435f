//! A file as a disk.

use crate::blocks::{check_runs, fill_run, look, look_each, look_run, number, three_calls};
use crate::disk_checks::By;
use jb_block::BlockSize;
use jb_disk::{Disk, Fault, FileDisk};
use std::fs;
use std::fs::{File, OpenOptions};
use std::process::Abort;
use std::rt::Files;
use tests_support::{Test, check, check_at};

/// What a test needs of its runtime here.
trait Host: Files<File = File> + Abort {}

impl<R: Files<File = File> + Abort> Host for R {}

/// Gives a file these bytes.
fn make(rt: &impl Host, path: &'static str, bytes: &[u8]) {
    let _ = fs::create_dir(rt, "data");
    fs::write(rt, path, bytes).expect(rt, path)
}

/// How many bytes a file has.
fn len_of(rt: &impl Host, path: &'static str) -> u64 {
    fs::metadata(rt, path).expect(rt, path).len()
}

fn remove(rt: &impl Host, path: &'static str) {
    fs::remove_file(rt, path).expect(rt, path);
    let _ = fs::remove_dir(rt, "data");
}

/// A file as a disk of blocks of 1 KiB.
fn disk_of(rt: &impl Host, file: File) -> FileDisk {
    FileDisk::of(file, BlockSize::OneKib).expect(rt, "a file is no disk")
}

/// A file that may be written.
fn opened(rt: &impl Host, path: &'static str) -> FileDisk {
    let file = OpenOptions::new().read(true).write(true).open(rt, path);
    disk_of(rt, file.expect(rt, path))
}

/// A file that may only be read.
fn reader(rt: &impl Host, path: &'static str) -> FileDisk {
    disk_of(rt, File::open(rt, path).expect(rt, path))
}

const RUN: &str = "data/run.img";

/// Checks runs that are read of a file, also of one that has become shorter than the disk.
fn check_read(rt: &impl Host) {
    let test = By(rt);
    make(rt, RUN, &[0; 5 * 1024 + 700]);
    let mut disk = opened(rt, RUN);
    check_runs(&test, &mut disk, "a file");
    make(rt, RUN, &[9; 3 * 1024 + 512]);
    let is_read = look_run(&mut disk, 1, 2) == Ok([9, 9, 9, 9, 0, 0]);
    check(&test, is_read, "two blocks of three and a half");
    let is_fault = look_run(&mut disk, 1, 3) == Err(Fault);
    check(&test, is_fault, "four blocks of three and a half");
    remove(rt, RUN)
}

const WRITTEN: &str = "data/written.img";

/// The place of a run that is written, how many blocks it has, and what each block then has.
struct Run(u64, usize, [[u8; 4]; 5]);

static RUNS: [Run; 3] = [
    Run(3, 1, [[1; 4], [2; 4], [3; 4], [7; 4], [5; 4]]),
    Run(1, 3, [[1; 4], [7; 4], [8; 4], [9; 4], [5; 4]]),
    Run(3, 2, LAST),
];

/// What the blocks have at last.
const LAST: [[u8; 4]; 5] = [[1; 4], [7; 4], [8; 4], [7; 4], [8; 4]];

/// Checks a run that is written by one disk and read by another.
fn check_run<A: Disk, B: Disk>(
    test: &impl Test,
    disk: &mut A,
    reader: &mut B,
    run: &Run,
    row: u64,
) {
    let Run(place, blocks, found) = *run;
    let answer = fill_run(disk, place, blocks, 7);
    check_at(test, answer.is_ok(), "what is answered of run", row);
    let is_read = look_each(reader) == Ok(found);
    check_at(test, is_read, "what is read of run", row)
}

/// Checks runs that are written by one disk and read by another, which may not write.
fn check_runs_written(test: &impl Test, disk: &mut FileDisk, reader: &mut FileDisk) {
    check(test, number(disk).is_ok(), "the blocks are not filled");
    for (row, run) in RUNS.iter().enumerate() {
        check_run(test, disk, reader, run, row as u64)
    }
    check(test, fill_run(reader, 0, 3, 7) == Err(Fault), "a reader");
    check(test, look_each(reader) == Ok(LAST), "what is not written");
    check(test, reader.blocks() == 5, "how many blocks there are")
}

/// Checks blocks in a row of a file: its other blocks stay, and so do all in a file that may only be read.
fn check_written(rt: &impl Host) {
    make(rt, WRITTEN, &[0; 5 * 1024 + 700]);
    let mut disk = opened(rt, WRITTEN);
    let mut again = reader(rt, WRITTEN);
    check_runs_written(&By(rt), &mut disk, &mut again);
    let len = len_of(rt, WRITTEN);
    check(&By(rt), len == 5 * 1024 + 700, "how long the file is");
    remove(rt, WRITTEN)
}

const BLOCKS: &str = "data/blocks.img";

/// Checks the calls of a file that may be written, of the same one that may only be read, and of shorter ones.
fn check_calls(rt: &impl Host) {
    let test = By(rt);
    make(rt, BLOCKS, &[9; 2500]);
    let mut disk = opened(rt, BLOCKS);
    check(&test, disk.blocks() == 2, "how many blocks there are");
    let calls = three_calls(&mut disk);
    check(&test, calls == [true, true, true], "what is written");
    check(&test, look(&mut disk, 0) == Ok([9; 4]), "the block before");
    let mut again = reader(rt, BLOCKS);
    check(&test, look(&mut again, 1) == Ok([7; 4]), "what is read");
    let calls = three_calls(&mut again);
    check(&test, calls == [false, true, true], "what is not written");
    check(&test, len_of(rt, BLOCKS) == 2500, "how long the file is");
    make(rt, BLOCKS, &[9; 1023]);
    check(&test, look(&mut again, 0) == Err(Fault), "a gone block");
    check(&test, reader(rt, BLOCKS).blocks() == 0, "what is left");
    remove(rt, BLOCKS)
}

/// Checks that a sync asks the system: one of a file that it can not sync is a fault.
fn check_sync(rt: &impl Host) {
    let mut disk = opened(rt, "/dev/null");
    check(&By(rt), disk.sync() == Err(Fault), "a sync of /dev/null")
}

fn check_files(rt: &impl Host) {
    check_sync(rt);
    check_read(rt);
    check_written(rt);
    check_calls(rt)
}

#[test]
fn a_file_is_read_written_synced_and_opened_again(rt: HostRuntime) {
    check_files(&rt)
}
