//! What each kind of step does to the view of the seat that steps.
ghost use Rattle.jb_board.specs.Front.{front};
ghost use Rattle.jb_board.specs.Steps.{Enters, SeesSettled, SeesTaken, SeesStopped};
ghost use Rattle.jb_board.specs.Steps.{RaisesSettled, RaisesTaken, RaisesStopped};

use crate::front::Front;
use atomic_table::{Join, Play, Split};

/// A new seat has seen nothing.
pub struct NewSeat;

impl Play<(), Front> for NewSeat {
    ghost then = { Enters };
}

/// A load of the settled count: the view takes it.
pub struct LoadSettled;

impl Play<(), Front> for LoadSettled {
    ghost then = { SeesSettled };
}

/// A load of the taken count: the view takes it.
pub struct LoadTaken;

impl Play<(), Front> for LoadTaken {
    ghost then = { SeesTaken };
}

/// A load of the stopped count: the view takes it.
pub struct LoadStopped;

impl Play<(), Front> for LoadStopped {
    ghost then = { SeesStopped };
}

/// A raise of the settled count: the view is raised to the value.
pub struct RaiseSettled;

impl Play<(), Front> for RaiseSettled {
    ghost then = { RaisesSettled };
}

/// A raise of the taken count: the view is raised to the value.
pub struct RaiseTaken;

impl Play<(), Front> for RaiseTaken {
    ghost then = { RaisesTaken };
}

/// A raise of the stopped count: the view is raised to the value.
pub struct RaiseStopped;

impl Play<(), Front> for RaiseStopped {
    ghost then = { RaisesStopped };
}

/// The new seat starts with the view of the one that it is split off from.
pub struct Same;

impl Split<Front> for Same {
    ghost left = { λ v. v };

    ghost right = { λ v. v };
}

/// The seat that is kept keeps its view, and the other one is used up.
pub struct Kept;

impl Join<Front> for Kept {
    ghost both = { λ v w. v };

    ghost spent = { front 0 0 0 };
}
