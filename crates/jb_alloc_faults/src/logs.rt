//! The reader of a log.
ghost use Rattle.std.specs.Prelude.{◌≡◌, All, IfOk, length};

use crate::met::{Met, tried};
use jb_block::{BlockSize, Memory, Width};
use jb_scan::{Block, Piece, ScanFault, Seen, read_transactions};
use std::alloc::Global;
use std::fs::File;
use std::rt::Files;

/// The fronts of a log's blocks: a revoke of home 7, a descriptor of home 5, its data, and a commit block, all of
/// number 2.
const FRONTS: [[u8; 20]; 4] = [
    [
        0xc0, 0x3b, 0x39, 0x98, 0, 0, 0, 5, 0, 0, 0, 2, 0, 0, 0, 0x14, 0, 0, 0, 7,
    ],
    [
        0xc0, 0x3b, 0x39, 0x98, 0, 0, 0, 1, 0, 0, 0, 2, 0, 0, 0, 5, 0, 0, 0, 9,
    ],
    [1, 2, 3, 4, 0, 0, 0, 0, 0, 0, 0, 0, 0, 0, 0, 0, 0, 0, 0, 0],
    [
        0xc0, 0x3b, 0x39, 0x98, 0, 0, 0, 2, 0, 0, 0, 2, 0, 0, 0, 0, 0, 0, 0, 0,
    ],
];

/// A block that begins with these bytes, and zeros after them.
fn block_of(front: &[u8; 20]) -> [u8; 1024] {
    let mut block = [0; 1024];
    for i in 0..20usize {
        block[i] = front[i];
    }
    block
}

/// The blocks of the log.
fn log(alloc: Global) -> Result<Vec<Block>, Memory>
    ensures { IfOk result (λ log. All (λ block. length block ≡ 1024) log.items) }
{
    let mut log = Vec::new(alloc);
    for front in &FRONTS {
        let block = Block::of(alloc, &block_of(front))?;
        log.push(block)?;
    }
    Ok(log)
}

/// The transactions of a log.
pub fn row(rt: &impl Files<File = File>, alloc: Global) -> Option<Met> {
    let Ok(blocks) = log(alloc) else {
        return None;
    };
    tried(rt, || is_read(alloc, &blocks))
}

/// Whether the log is read as it is.
fn is_read(alloc: Global, log: &Vec<Block>) -> Result<bool, Memory>
    requires { All (λ block. length block ≡ 1024) log.now.items }
{
    match read_transactions(alloc, log, BlockSize::OneKib, 2, Width::Narrow) {
        Ok(seen) => Ok(is_whole(&seen)),
        Err(ScanFault::Memory) => Err(Memory),
        Err(_) => Ok(false),
    }
}

/// Whether the one transaction was found, with its revoke block and its copy.
fn is_whole(seen: &Seen) -> bool {
    if seen.expected != 3 || seen.transactions.len() != 1 {
        return false;
    }
    let pieces = seen.transactions.as_slice()[0].pieces.as_slice();
    if pieces.len() != 2 {
        return false;
    }
    let revokes = match &pieces[0] {
        Piece::Revokes { count, homes } => *count == 20 && homes.as_slice() == [7].as_slice(),
        Piece::Run(_) => false,
    };
    let copies = match &pieces[1] {
        Piece::Run(copies) => copies.len() == 1,
        Piece::Revokes { .. } => false,
    };
    revokes && copies
}
