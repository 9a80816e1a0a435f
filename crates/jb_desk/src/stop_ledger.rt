//! What a desk is started with, for the handles that will stop.
ghost use Rattle.std.specs.Prelude.{◌≡◌, IfOk};

use jb_block::Memory;
use jb_board::NewHistory;
use jb_handle::Words;
use std::alloc::Global;
use std::sync::ledger::Blank;

/// A new ledger, in which the handles that stop are counted, and a new history of them. The history has no
/// bytes of theirs: it exists in contracts only.
#[derive(Drop)]
pub struct StopLedger {
    /// The ledger.
    pub tickets: Blank,
    /// The history.
    pub history: NewHistory<Words>,
}

impl StopLedger {
    /// A ledger of this many parts, and a history.
    ///
    /// # Errors
    ///
    /// `Memory` where there is none for the history's word.
    pub fn new(alloc: Global, parts: u64) -> Result<StopLedger, Memory>
        ensures { IfOk result (λ stops. stops.tickets.parts ≡ parts) }
    {
        Ok(StopLedger {
            tickets: Blank::new(parts),
            history: NewHistory::new(alloc)?,
        })
    }
}
