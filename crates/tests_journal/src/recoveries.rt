//! Journals in files are recovered where they are opened, and by the clients of proof_clients.
use crate::checks::{By, FileHost, Host};
use crate::files::{NAME, fresh};
use crate::journals::{CLOCK, by, formatted};
use crate::workers::{PAIRS, run_new};
use jb_disk::Unknown;
use jb_journal::{BlockSize, Disk, MemoryDisk, RecoverFault, Recovered, open, recover};
use proof_clients::{recover_file, recover_files, run_in_file};
use std::fs;
use tests_support::{Must, Test, check, crashed, opened, read_at, write_blocks};

/// The file of the homes alone.
const HOMES: &str = "homes.img";

/// What a recovery finds of the only transaction.
static FOUND: Result<Recovered, RecoverFault> = Ok(Recovered {
    transactions: 1,
    copies: 2,
    revoked: 0,
    next: 4,
});

/// What a crash leaves of a journal that one worker has run: its transaction is committed, and not at home.
fn pending(rt: &impl Host) -> MemoryDisk {
    let test = By(rt, rt.alloc());
    let ran = run_new(rt, by(1), &PAIRS);
    crashed(&test, &ran.disk, &[])
}

/// Checks the two homes that the worker wrote.
fn check_homes(test: &impl Test, disk: &mut impl Disk) {
    let mut block = [0; 1024];
    read_at(test, disk, 33, &mut block);
    check(test, block == [1; 1024], "home 0");
    read_at(test, disk, 34, &mut block);
    check(test, block == [1; 1024], "home 1")
}

/// Checks that a journal is recovered where it is opened.
fn check_door(rt: &impl FileHost, disk: &mut impl Disk) {
    let test = By(rt, rt.alloc());
    write_blocks(&test, rt, disk, NAME, 0, 49);
    let file = open(rt, NAME, BlockSize::OneKib);
    check_homes(&test, &mut file.must(&test, "a file is not opened"))
}

/// Checks a journal with its homes in one file.
fn check_one(rt: &impl FileHost, disk: &mut impl Disk) {
    let test = By(rt, rt.alloc());
    write_blocks(&test, rt, disk, NAME, 0, 49);
    let ran = recover_file::<Unknown>(rt.alloc(), opened(&test, rt, NAME), BlockSize::OneKib);
    let (mut file, found) = ran.must(&test, "a file is no disk");
    check(&test, found == FOUND, "what is recovered of a file");
    check_homes(&test, &mut file)
}

/// Checks a journal in one file, with its homes in another.
fn check_two(rt: &impl FileHost, disk: &mut impl Disk) {
    let test = By(rt, rt.alloc());
    write_blocks(&test, rt, disk, NAME, 0, 33);
    write_blocks(&test, rt, disk, HOMES, 33, 49);
    let (journal, homes) = (opened(&test, rt, NAME), opened(&test, rt, HOMES));
    let ran = recover_files::<Unknown, Unknown>(rt.alloc(), journal, homes, BlockSize::OneKib);
    let (mut files, found) = ran.must(&test, "a file is no disk");
    check(&test, found == FOUND, "what is recovered of two files");
    check_homes(&test, &mut files)
}

/// Checks two files in the wrong order: the first one has no journal.
fn check_order(rt: &impl FileHost) {
    let test = By(rt, rt.alloc());
    let (journal, homes) = (opened(&test, rt, HOMES), opened(&test, rt, NAME));
    let ran = recover_files::<Unknown, Unknown>(rt.alloc(), journal, homes, BlockSize::OneKib);
    let (_files, found) = ran.must(&test, "a file is no disk");
    let is_refused = matches!(found, Err(RecoverFault::Super(_)));
    check(&test, is_refused, "files in the wrong order")
}

/// Checks the recovery of what a crash has left of a journal.
fn check_files(rt: &impl FileHost, disk: &mut impl Disk) {
    fresh(rt);
    check_door(rt, disk);
    check_one(rt, disk);
    check_two(rt, disk);
    check_order(rt);
    let _none = fs::remove_file(rt, HOMES);
    fresh(rt)
}

#[test]
fn journals_in_files_are_recovered(rt: HostRuntime) {
    check_files(&rt, &mut pending(&rt))
}

/// Checks a new journal in a file that one worker runs: its handle is acknowledged, and recovered from the file.
fn check_run<R: Host + FileHost>(rt: &R) {
    let test = By(rt, rt.alloc());
    fresh(rt);
    let mut disk = formatted(&test, BlockSize::OneKib);
    write_blocks(&test, rt, &mut disk, NAME, 0, 49);
    let file = opened(&test, rt, NAME);
    let ran = run_in_file(rt, file, BlockSize::OneKib, CLOCK, by(1), &PAIRS);
    let mut ran = ran.must(&test, "a journal in a file is not run");
    check(&test, ran.handles == 1, "how many handles stop");
    let found = recover(rt.alloc(), &mut ran.disk);
    check(
        &test,
        found == FOUND,
        "what is recovered of a run in a file",
    );
    check_homes(&test, &mut ran.disk);
    fresh(rt)
}

#[test]
fn a_journal_in_a_file_is_run(rt: HostRuntime) {
    check_run(&rt)
}
