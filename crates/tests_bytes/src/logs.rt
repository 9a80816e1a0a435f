//! What logs are found to hold.
ghost use Rattle.std.specs.Prelude.{◌≡◌, All, length};

use crate::blocks::{COMMIT, DESCRIPTOR};
use crate::checks::By;
use crate::log_rows::{BAD_REVOKE, Found, LOGS, Log, Part, Wanted};
use crate::stepped::found_stepwise;
use jb_block::{BlockSize, Width};
use jb_group::{Piece, ScanFault, Seen, Transaction, read_transactions};
use jb_scan::Block;
use jb_tags::Tag;
use std::alloc::Global;
use tests_support::{Must, Test, block_of, check, check_at};

/// A log of blocks that begin with these bytes.
fn log_of(test: &impl Test, alloc: Global, blocks: &[&[u8]]) -> Vec<Block>
    ensures { All (λ block. length block ≡ 1024) result.items }
{
    let mut log = Vec::new(alloc);
    for bytes in blocks {
        let block = Block::of(alloc, &block_of(bytes)).must(test, "memory");
        log.push(block).must(test, "memory");
    }
    log
}

fn same_copies(copies: &[(Tag, Block)], wanted: &[(u64, u16, &[u8])]) -> bool {
    if copies.len() != wanted.len() {
        return false;
    }
    for i in 0..copies.len() {
        let ((tag, block), (home, flags, bytes)) = (&copies[i], &wanted[i]);
        let same = Tag {
            home: *home,
            flags: *flags,
            sum: 0,
        };
        if *tag != same || block.as_slice() != block_of(bytes).as_slice() {
            return false;
        }
    }
    true
}

fn same_parts(pieces: &[Piece], wanted: &[Part]) -> bool {
    if pieces.len() != wanted.len() {
        return false;
    }
    for i in 0..pieces.len() {
        let same = match (&pieces[i], &wanted[i]) {
            (Piece::Revokes { count, homes }, Part::Revokes(used, named)) => {
                count == used && homes.as_slice() == *named
            }
            (Piece::Run(copies), Part::Run(wanted)) => same_copies(copies.as_slice(), wanted),
            _ => false,
        };
        if !same {
            return false;
        }
    }
    true
}

fn same_transactions(found: &[Transaction], wanted: &[Wanted]) -> bool {
    if found.len() != wanted.len() {
        return false;
    }
    for i in 0..found.len() {
        let (one, (number, stamp, parts)) = (&found[i], &wanted[i]);
        let is_headed = one.number == *number && one.stamp == *stamp;
        if !is_headed || !same_parts(one.pieces.as_slice(), parts) {
            return false;
        }
    }
    true
}

fn is_seen(seen: &Seen, wanted: (&[Wanted], u32)) -> bool {
    let (transactions, expected) = wanted;
    seen.expected == expected && same_transactions(seen.transactions.as_slice(), transactions)
}

/// Whether the reading of a log answers just this.
fn answers(found: &Result<Seen, ScanFault>, wanted: &Found) -> bool {
    match (found, wanted) {
        (Ok(seen), Ok(wanted)) => is_seen(seen, *wanted),
        (Err(found), Err(fault)) => *found == *fault,
        _ => false,
    }
}

/// Whether just this is found in a log of blocks that begin with these bytes, where it is read at once.
fn is_read(
    test: &impl Test,
    alloc: Global,
    blocks: &[&[u8]],
    number: u32,
    width: Width,
    wanted: &Found,
) -> bool {
    let log = log_of(test, alloc, blocks);
    let found = read_transactions(alloc, &log, BlockSize::OneKib, number, width);
    answers(&found, wanted)
}

/// Whether just this is found in a log, which is read at once and block by block. Of a bad count the reader of blocks
/// says nothing.
fn finds(
    test: &impl Test,
    alloc: Global,
    blocks: &[&[u8]],
    number: u32,
    width: Width,
    wanted: &Found,
) -> bool {
    is_read(test, alloc, blocks, number, width, wanted)
        && steps_to(test, alloc, blocks, number, width, wanted)
}

/// Whether the reader of blocks finds this.
fn steps_to(
    test: &impl Test,
    alloc: Global,
    blocks: &[&[u8]],
    number: u32,
    width: Width,
    wanted: &Found,
) -> bool {
    match wanted {
        Ok(wanted) => is_seen(&found_stepwise(test, alloc, blocks, number, width), *wanted),
        Err(_) => true,
    }
}

/// A descriptor that is full of tags.
fn full() -> [u8; 1024] {
    let mut full = [0; 1024];
    for i in 0..124usize {
        full[12 + 8 * i + 7] = 2;
    }
    full[..12].copy_from_slice(&DESCRIPTOR[..12]);
    full
}

/// Checks that nothing is committed after a full descriptor without a block of data, or after a revoke block with a bad
/// count.
fn check_nothing(test: &impl Test, alloc: Global) {
    let none: Found = Ok((&[], 2));
    let full = full();
    let log: [&[u8]; 3] = [&full, &COMMIT, &COMMIT];
    let is_none = finds(test, alloc, &log, 2, Width::Narrow, &none);
    check(test, is_none, "copies without data are committed");
    let is_none = finds(test, alloc, &[&BAD_REVOKE], 2, Width::Narrow, &none);
    check(test, is_none, "a bad count is judged too early")
}

/// Checks what a row is found to hold.
fn check_log(test: &impl Test, alloc: Global, log: &Log, row: u64) {
    let is_found = finds(test, alloc, log.blocks, log.number, log.width, &log.found);
    check_at(test, is_found, "what is found in row", row)
}

/// Checks what each row is found to hold.
fn check_logs(test: &impl Test, alloc: Global) {
    for (row, log) in LOGS.iter().enumerate() {
        check_log(test, alloc, log, row as u64)
    }
    check_nothing(test, alloc)
}

#[test]
fn logs_are_read(rt: HostRuntime) {
    check_logs(&By(&rt), rt.alloc())
}
