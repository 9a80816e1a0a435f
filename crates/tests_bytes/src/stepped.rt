//! Logs that are read a block at a time.

use jb_block::{Items, Layout, Width};
use jb_group::{Seen, Transaction};
use jb_scan::{Reader, Taken};
use std::alloc::Global;
use tests_support::{Must, Test, block_of};

/// What a reader finds in a log of blocks that begin with these bytes.
pub fn found_stepwise(
    test: &impl Test,
    alloc: Global,
    blocks: &[&[u8]],
    number: u32,
    width: Width,
) -> Seen {
    let mut reader = Reader::new(alloc, number, Layout::plain(width));
    let mut transactions = Items::new(alloc);
    for bytes in blocks {
        if !steps(test, &mut reader, &mut transactions, bytes) {
            break;
        }
    }
    Seen {
        transactions,
        expected: reader.number(),
    }
}

/// Whether a reader goes on after the next block, of which it may commit a transaction.
fn steps(
    test: &impl Test,
    reader: &mut Reader,
    transactions: &mut Items<Transaction>,
    bytes: &[u8],
) -> bool {
    match reader.take(&block_of(bytes)).must(test, "memory") {
        Taken::Ends => false,
        Taken::Goes => true,
        Taken::Commits(transaction) => {
            transactions.push(transaction).must(test, "memory");
            true
        }
    }
}
