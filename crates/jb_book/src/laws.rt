//! Laws over the definitions alone, and a step of the machine as its shadow shows it.
ghost use Rattle.jb_core.specs.Steps.{MachineSteps};
ghost use Rattle.jb_book.specs.Calls.{TakesLeast};
ghost use Rattle.jb_book.specs.Events.{Shadowed, StepsShadow};
ghost use Rattle.jb_book.specs.MachineTie.{BookIsTied, CommitTells, EveryRun};
ghost use Rattle.jb_book.specs.Since.{NoneAfterAtDesk};

use crate::Origin;
use jb_core::{CoreFault, Event, Reply, State, step};
use jb_disk::Disk;

/// An event that a sound machine accepts changes the machine's shadow by the function by which the
/// book's call for that event changes the book's shadow.
#[tactic(auto, using(crate::proofs::Shadows::shadowed))]
pub fn shadowed()
    ensures { Shadowed }
{}

/// A step of the machine, as its shadow shows it.
///
/// # Errors
///
/// Those of [`jb_core::step`]; the shadow is as it was.
#[tactic(auto, using(crate::proofs::Shadows::stepped))]
pub fn step_shadowed(state: &mut State, event: Event) -> Result<Reply, CoreFault>
    ensures step { MachineSteps event state.old result state.new }
    /// Each step of the machine changes what a book knows of it as the book's call for that event does.
    ensures shadow { StepsShadow event state.old result state.new }
{
    let _up = state.is_up(); // for the proof alone: only methods say that a state is sound
    step(state, event)
}

/// What a book accepts, the machine accepts. Each call of a sound book whose account is a part of what the
/// machine has after some accepted events (`Tied`) is one more such event, or several, or none; then the
/// account after the call is such a part again. A stop is a change of each home that the handle touched, and
/// then a Stop. A `settle` is the Settle of as many groups where its entries are those of the first groups
/// that are out.
#[tactic(auto, using(crate::proofs::CallTies::tied))]
pub fn tied()
    /// What a book accepts, the machine accepts, call by call.
    ensures { BookIsTied }
{}

/// Any list of calls of a new book is a list of events that the machine accepts. So the settled groups, the
/// groups that are out and the queue, joined in order, are the handles that stopped, each whole and once; and
/// the settled groups, those of the book's trail, are always a prefix of them.
pub fn every_run()
    /// In any list of calls of a new book (each `take` with a least cut of its batch, each `settle` of the first groups
    /// that are being committed) each stopped handle is once and whole in a settled group, in one that is being
    /// committed or in the queue, until the book fails. The settled groups always have a prefix of the stops.
    ensures { EveryRun }
{}

/// A batch that has a cut, as each batch of a book, has a least one. So a list of calls may name one for each
/// `take`, also where the batch is never committed.
#[tactic(auto, using(crate::proofs::LeastCut::has_least))]
pub fn takes_least()
    /// Each batch of a book has a least cut, so each `take` is a call of such a list.
    ensures { TakesLeast }
{}

/// The entries of a `Done` that a commit gives are those of the first groups of its batch's cut: of all, or
/// after a fault of the disk of some. So `settle` may take it, as the law of every run asks.
#[tactic(auto, using(crate::proofs::CommitEntries::commit_tells))]
pub fn commit_tells<D: Disk>()
    /// The entries of a commit are those of the first groups of its batch's cut.
    ensures { CommitTells D }
{}

/// Of the disk that a desk or a run gives back (the word `EndsSince` of its clauses): no call came after a write or a
/// sync that failed, where none had failed at the start. (A call may come after a read of a home that failed.)
pub fn none_after_at_desk<D: Disk, H: Origin>()
    /// No call of the disk that a desk, or a run, gives back has come after a write or a sync that failed, where none
    /// had failed when it was started.
    ensures { NoneAfterAtDesk D.Disk H.begun }
{}
