//! A journal on one disk, recovered to home blocks on another.

use crate::checks::By;
use crate::images::put_rows;
use crate::small::journal;
use crate::summed_logs::{V3, V3_AFTER};
use jb_block::{BlockSize, Width};
use jb_disk::{Disk, Fault, MemoryDisk};
use jb_format::format;
use jb_image::PairDisk;
use jb_recover::{PeekFault, Recovered, peek, recover, recover_checked};
use tests_support::{
    Bench, Must, Test, block_of, check, check_at, check_none, crashed, difference, read_at,
    read_block, write_at, zeros,
};

type Both = PairDisk<MemoryDisk, MemoryDisk>;

/// How many blocks the journal has.
const JOURNAL: u32 = 33;

/// The first bytes of the log's blocks: a descriptor block of transaction 2 for home block 5, its data, and its commit
/// block.
static LOG: [&[u8]; 3] = [
    &[
        0xC0, 0x3B, 0x39, 0x98, 0, 0, 0, 1, 0, 0, 0, 2, 0, 0, 0, 5, 0, 0, 0, 8,
    ],
    b"five",
    &[0xC0, 0x3B, 0x39, 0x98, 0, 0, 0, 2, 0, 0, 0, 2],
];

/// The first four bytes of a block.
fn look<D: Disk>(disk: &mut D, place: u64) -> Result<[u8; 4], Fault> {
    let mut block = [0; 1024];
    read_block(disk, place, &mut block)?;
    Ok([block[0], block[1], block[2], block[3]])
}

/// Two disks, with a new journal on the first one.
fn formatted(test: &impl Bench) -> Both {
    let (alloc, size) = (test.alloc(), BlockSize::OneKib);
    let front = zeros(test, alloc, size, u64::from(JOURNAL));
    let mut disk = PairDisk::of(front, zeros(test, alloc, size, 16));
    let answer = format(&mut disk, JOURNAL, 0, [0; 16], Width::Narrow);
    check(test, answer == Ok(()), "no journal was made");
    disk
}

/// Gives the journal a log, synced, that begins at block 1 with transaction 2.
fn put_log<D: Disk>(test: &impl Test, disk: &mut D) {
    let mut front = [0; 1024];
    read_at(test, disk, 0, &mut front);
    front[27] = 2;
    front[31] = 1;
    write_at(test, disk, 0, &front);
    put_blocks(test, disk);
    disk.sync().must(test, "a sync")
}

/// Puts the blocks of the log.
fn put_blocks<D: Disk>(test: &impl Test, disk: &mut D) {
    for (place, bytes) in (1..).zip(&LOG) {
        write_at(test, disk, place, &block_of(bytes));
    }
}

/// The first four bytes that a peek at a home gives.
fn peeked<D: Disk>(disk: &mut D, home: u64) -> Result<[u8; 4], PeekFault> {
    let mut block = [0; 1024];
    if disk.block_size() != BlockSize::OneKib {
        return Err(PeekFault::DeviceFault);
    }
    peek(disk, home, &mut block)?;
    Ok([block[0], block[1], block[2], block[3]])
}

/// Checks the homes that a crash leaves of the second disk at least.
fn check_homes(test: &impl Test, homes: &MemoryDisk, fifth: [u8; 4]) {
    let mut left = crashed(test, homes, &[]);
    for home in 0..16 {
        let is = if home == 5 { fifth } else { [0; 4] };
        check_at(test, look(&mut left, home) == Ok(is), "home", home)
    }
}

/// Checks what a crash leaves of the two disks at least.
fn check_left(test: &impl Test, log: &MemoryDisk, homes: &MemoryDisk) {
    check_homes(test, homes, *b"five");
    let copy = look(&mut crashed(test, log, &[]), 2);
    check(test, copy == Ok(*b"five"), "the copy in the log")
}

/// What a recovery of one copy reports.
const FOUND: Recovered = Recovered {
    transactions: 1,
    copies: 1,
    revoked: 0,
    next: 4,
};

fn check_recovered(test: &impl Bench) {
    let mut disk = formatted(test);
    put_log(test, &mut disk);
    check(test, peeked(&mut disk, 5) == Ok(*b"five"), "a peek");
    let answer = recover(test.alloc(), &mut disk);
    check(test, answer == Ok(FOUND), "a recovery");
    let (log, homes) = disk.into_parts();
    check_left(test, &log, &homes)
}

#[test]
fn a_journal_is_recovered_to_another_disk(rt: HostRuntime) {
    check_recovered(&By(&rt, rt.alloc()))
}

/// A journal with checksums, whose home 5 has the magic back, and what a crash leaves of both disks at least.
fn check_summed(test: &impl Bench) {
    let front = journal(test, u64::from(JOURNAL), &V3);
    let mut disk = PairDisk::of(front, zeros(test, test.alloc(), BlockSize::OneKib, 16));
    let answer = recover_checked(test.alloc(), &mut disk);
    check(test, answer == Ok(FOUND), "a recovery with checksums");
    let (log, homes) = disk.into_parts();
    check_homes(test, &homes, [0xC0, 0x3B, 0x39, 0x98]);
    let mut left = crashed(test, &log, &[]);
    let mut wanted = journal(test, u64::from(JOURNAL), &V3);
    put_rows(test, &mut wanted, 0, &V3_AFTER[..2]);
    let place = difference(test, &mut left, &mut wanted, 0);
    check_none(test, "the journal", "block", place)
}

#[test]
fn a_journal_with_checksums_is_recovered_to_another_disk(rt: HostRuntime) {
    check_summed(&By(&rt, rt.alloc()))
}
