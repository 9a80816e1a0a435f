//! What a log holds, added up transaction by transaction.
ghost use Rattle.std.specs.Prelude.{◌≡◌, ◌+◌, ◌^◌, ◌<◌, ◌++◌, [], ◌∷◌, List, map, is_some, OnOk};
ghost use Rattle.jb_scan.specs.declared.transaction.Transaction.{Transaction as TransactionValue};
ghost use Rattle.jb_dump.specs.Summary.{transaction_size, sum_of, summary_of};
ghost use Rattle.jb_dump.specs.LogTotals.{AreTallied};

use crate::contents::Contents;
use jb_block::Memory;
use jb_scan::Transaction;
use std::alloc::Global;

/// What the committed transactions of a log come to.
#[derive(Drop)]
pub(crate) struct LogTotals {
    /// How many there are.
    pub count: u64,
    /// The fewest blocks of one; 0 where there is none.
    pub least: u64,
    /// The most blocks of one.
    pub most: u64,
    /// When the first was committed, in seconds since 1970; 0 where there is none.
    pub first: u64,
    /// When the last was.
    pub last: u64,
    /// How many blocks each takes, in their order.
    pub sizes: Vec<u32>,
    /// What they hold.
    pub contents: Contents,
}

impl LogTotals {
    ghost use Rattle.jb_dump.specs.LogTotals.{AddsOne, IsBounded, IsTallyOf};

    /// Of no transactions. Takes no memory.
    pub(crate) fn new(alloc: Global) -> LogTotals
        ensures { IsTallyOf (summary_of []) result }
    {
        LogTotals {
            count: 0,
            least: 0,
            most: 0,
            first: 0,
            last: 0,
            sizes: Vec::new(alloc),
            contents: Contents::new(alloc),
        }
    }

    /// Adds a transaction.
    pub(crate) fn add(&mut self, transaction: &Transaction) -> Result<(), Memory>
        requires low { IsBounded self.old.contents }
        requires few { self.old.count < 2 ^ 32 }
        requires room { self.old.contents.blocks + transaction_size transaction.now < 2 ^ 32 }
        ensures { OnOk result (AddsOne self.old transaction.now self.new) }
    {
        let before = self.contents.blocks;
        self.contents.add(transaction.pieces.as_slice())?;
        let blocks = self.contents.blocks - before;
        self.sizes.push(blocks)?;
        let size = u64::from(blocks);
        let sec = transaction.stamp.sec;
        if self.count == 0 {
            self.least = size;
            self.first = sec;
        } else {
            self.least = self.least.min(size);
        }
        self.most = self.most.max(size);
        self.last = sec;
        self.count += 1;
        Ok(())
    }
}

/// A tally of no transactions, where one is wanted.
pub(crate) fn tally_where(alloc: Global, wanted: bool) -> Option<LogTotals>
    ensures tallied { AreTallied [] result }
    ensures wanted { is_some result ≡ wanted }
{
    if wanted {
        return Some(LogTotals::new(alloc));
    }
    None
}

/// Adds a transaction to a tally, where there is one.
pub(crate) fn add_to(tally: &mut Option<LogTotals>, transaction: &Transaction) -> Result<(), Memory>
    requires room { (ts : List TransactionValue) × AreTallied ts tally.old
        × (sum_of (map transaction_size ts) + transaction_size transaction.now < 2 ^ 32) }
    ensures tallied { OnOk result ((ts : List TransactionValue) → AreTallied ts tally.old
        → AreTallied (ts ++ transaction.now ∷ []) tally.new) }
    ensures same { OnOk result (is_some tally.new ≡ is_some tally.old) }
{
    let Some(tally) = tally else {
        return Ok(());
    };
    tally.add(transaction)?;
    Ok(())
}
