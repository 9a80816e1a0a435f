//! What holds of a history between any two steps.
use crate::view::View;
use atomic_table::TableRule;

/// There is one history, as every view has it.
pub struct Law;

impl<E> TableRule<E, View<E>, ()> for Law {
    ghost use Rattle.std.specs.Prelude.{[]};
    ghost use Rattle.jb_board.specs.HistoryRule.{HasOneHistory};
    ghost use Rattle.jb_board.specs.View.{writer};

    ghost holds = { λ _ table. HasOneHistory table.views };

    ghost first = { λ _. writer [] };
}
