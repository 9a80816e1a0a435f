//! What a desk was started with, which its caller picks.
use jb_board::Place;
use std::marker::{Brand, PhantomData};
use std::sync::ledger::Ledger;

/// Marks a desk, its ledger of handles and its two histories. Besides their members it has what is
/// known of the disk at the start, which contracts compare the disk of later with. A caller picks it where it
/// passes [`Brand`].
pub trait Origin: Ledger + Place {
    ghost use Rattle.jb_book.specs.Origin.{Begun};
    ghost use Rattle.jb_board.specs.History.{HistoryId};

    /// The disk at the start.
    ghost begun: { Begun };

    /// The identity of the history of the journal's marks ([`Marks`]).
    ghost marks: { HistoryId };
}

impl Origin for Brand {
    ghost use Rattle.jb_book.specs.Origin.{unknown};
    ghost use Rattle.jb_board.specs.Place.{nowhere};

    ghost begun = { unknown };

    ghost marks = { nowhere };
}

/// Names the history of a desk's marks: its journal, as it was at the start, after each round of a committer and after
/// each read.
#[derive(Drop)]
pub struct Marks<H: Origin> {
    of: PhantomData<H>,
}

impl<H: Origin> Place for Marks<H> {
    ghost history = { H.marks };
}
