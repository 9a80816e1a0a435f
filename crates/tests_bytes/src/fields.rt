//! Sizes, fields and headers of blocks.

use crate::blocks::REVOKE;
use crate::checks::By;
use jb_block::*;
use tests_support::{Test, check, check_at};

/// A block with a header of no type.
static UNKNOWN: [u8; 12] = [0xc0, 0x3b, 0x39, 0x98, 0, 0, 0, 6, 0, 0, 1, 0];

/// The front of a superblock with the bytes of its magic turned round.
static TURNED: [u8; 12] = [0x98, 0x39, 0x3b, 0xc0, 4, 0, 0, 0, 1, 0, 0, 0];

/// Each kind of block, with the number of its type in a header.
static KINDS: [(Kind, u8); 5] = [
    (Kind::Descriptor, 1),
    (Kind::Commit, 2),
    (Kind::Super1, 3),
    (Kind::Super2, 4),
    (Kind::Revoke, 5),
];

/// How many bytes are asked for, and how many a block of that size then has, if there is one.
static SIZES: [(u32, Option<u32>); 5] = [
    (512, None),
    (1024, Some(1024)),
    (2048, Some(2048)),
    (4096, Some(4096)),
    (8192, None),
];

/// Whether a block has this header.
fn has(block: &[u8], kind: Kind, number: u32) -> bool {
    header_of(block) == Some(Header { kind, number })
}

/// Checks what is read of the front of a revoke block.
fn check_read(test: &impl Test, block: &[u8; 20]) {
    check(test, has(block, Kind::Revoke, 2), "the header");
    check(test, get16(block, 2) == 0x3998, "two bytes");
    check(test, get32(block, 12) == 20, "four bytes");
    check(test, get64(block, 12) == 0x14_0000_0007, "eight bytes")
}

/// Checks the same that is written.
fn check_written(test: &impl Test) {
    let mut block = [0xEE; 20];
    put_header(&mut block, Kind::Revoke, 2);
    put16(&mut block, 12, 0);
    put16(&mut block, 14, 0x14);
    put32(&mut block, 16, 7);
    check(test, block == REVOKE, "what is written");
    put64(&mut block, 12, 0x14_0000_0008);
    check(test, get32(&block, 16) == 8, "what is read back")
}

/// Checks what is read of blocks without a header.
fn check_headless(test: &impl Test) {
    check(test, header_of(&UNKNOWN).is_none(), "a type 6");
    let number = begins_with_magic(&UNKNOWN);
    check(test, number == Some(256), "the number of a type 6");
    let number = begins_with_magic(&UNKNOWN[..11]);
    check(test, number.is_none(), "a number in 11 bytes");
    check(test, header_of(&TURNED).is_none(), "a turned header");
    let number = begins_with_magic(&TURNED);
    check(test, number.is_none(), "a turned magic")
}

/// Checks the header of a kind of block, of which the number is 7.
fn check_kind(test: &impl Test, kind: Kind, number: u8) {
    let at = u64::from(number);
    let mut block = [0xEE; 12];
    put_header(&mut block, kind, 7);
    let wanted = [0xc0, 0x3b, 0x39, 0x98, 0, 0, 0, number, 0, 0, 0, 7];
    check_at(test, block == wanted, "what is written of type", at);
    check_at(test, has(&block, kind, 7), "what is read of type", at);
    let is_read = begins_with_magic(&block) == Some(7);
    check_at(test, is_read, "the number that is read of type", at)
}

/// Checks the header of each kind of block.
fn check_kinds(test: &impl Test) {
    for (kind, number) in &KINDS {
        check_kind(test, *kind, *number)
    }
}

/// Checks which numbers of bytes a block may have.
fn check_sizes(test: &impl Test) {
    for (bytes, wanted) in &SIZES {
        let found = BlockSize::of(*bytes).map(BlockSize::bytes);
        check_at(test, found == *wanted, "a block size", u64::from(*bytes))
    }
}

fn check_each(test: &impl Test) {
    check_kinds(test);
    check_sizes(test);
    check_read(test, &REVOKE);
    check_written(test);
    check_headless(test)
}

#[test]
fn fields_and_headers(rt: HostRuntime) {
    check_each(&By(&rt))
}
