//! What each kind of step does to the view of the seat that steps.
use crate::view::View;
use atomic_table::{Join, Play, Split};

/// A new seat knows nothing.
pub struct Enter;

impl<E> Play<E, View<E>> for Enter {
    ghost use Rattle.jb_board.specs.HistorySteps.{EntersNew};

    ghost then = { EntersNew };
}

/// The writer adds what it says.
pub struct Add;

impl<E> Play<E, View<E>> for Add {
    ghost use Rattle.jb_board.specs.HistorySteps.{AddsEntry};

    ghost then = { AddsEntry };
}

/// A seat sees the history as it is.
pub struct Observe;

impl<E> Play<E, View<E>> for Observe {
    ghost use Rattle.jb_board.specs.HistorySteps.{Looks};

    ghost then = { Looks };
}

/// The entries that were made go to a seat of their own.
pub struct Entries;

impl<E> Split<View<E>> for Entries {
    ghost use Rattle.jb_board.specs.View.{without_mine, only_mine};

    ghost left = { without_mine };

    ghost right = { only_mine };
}

/// What was seen goes to one more seat.
pub struct ShareSeen;

impl<E> Split<View<E>> for ShareSeen {
    ghost use Rattle.jb_board.specs.View.{only_seen};

    ghost left = { λ v. v };

    ghost right = { only_seen };
}

/// A seat is told what another saw, and has its entries too.
pub struct Tell;

impl<E> Join<View<E>> for Tell {
    ghost use Rattle.jb_board.specs.View.{nobody, told_by};

    ghost both = { told_by };

    ghost spent = { nobody };
}
