//! The rule of the board's words, which holds between any two steps.
use crate::front::Front;
use atomic_table::TableRule;

/// The word with the count of stopped tickets.
pub const STOPPED: usize = 0;

/// The word with the count of taken tickets.
pub const TAKEN: usize = 1;

/// The word with the count of settled tickets.
pub const SETTLED: usize = 2;

/// The counts are in order, and no seat's view is above them.
pub struct Counts;

impl TableRule<(), Front, ()> for Counts {
    ghost use Rattle.jb_board.specs.Front.{front};
    ghost use Rattle.jb_board.specs.Rule.{AreCountsKept};

    ghost holds = { λ _ table. AreCountsKept table.words table.views };

    ghost first = { λ _. front 0 0 0 };
}
