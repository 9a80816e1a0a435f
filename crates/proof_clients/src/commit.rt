//! One call of a client: a batch is committed, and what a refused one hands back is given up.
ghost use Rattle.std.specs.Prelude.{◌≡◌, ◌+◌, false, map, OnOk};
ghost use Rattle.jb_disk.specs.Faults.{CountsAny};
ghost use Rattle.jb_disk.specs.KeptOn.{KeptOn};
ghost use Rattle.jb_disk.specs.Time.{LeavesOnly};
ghost use Rattle.jb_plan.specs.Prepare.{IsPlanned};
ghost use Rattle.jb_deck.specs.GroupsOfBatch.{groups_in};
ghost use Rattle.jb_disk.specs.Throughout.{AllHave};
ghost use Rattle.jb_deck.specs.Deck.{stood_on};
ghost use Rattle.jb_deck.specs.GroupByGroup.{FollowsSome};
ghost use Rattle.jb_deck.specs.Changes.{settles};
ghost use Rattle.jb_deck.specs.Since.{IsEnded, LeftInCommit};

use jb_block::Stamp;
use jb_deck::{BatchFault, Deck};
use jb_disk::Disk;
use jb_plan::Prepared;

/// A batch was refused, or a call of the disk failed.
#[derive(Drop)]
pub(crate) struct CommitFailed;

/// Gives up a batch.
pub(crate) fn give_up(batch: Prepared)
    ensures planned { IsPlanned batch }
{
    let _bounds = batch.groups().len(); // for the proof alone: only this method says that the cut is a least one
    let _handles = batch.back().end();
}

/// Gives up the batch that a refusal hands back.
pub(crate) fn give_up_refused(fault: BatchFault) {
    match fault {
        BatchFault::Aborted(batch)
        | BatchFault::WrongTicket(batch, _)
        | BatchFault::OtherShape(batch)
        | BatchFault::NumbersSpent(batch)
        | BatchFault::Memory(batch) => give_up(batch),
        BatchFault::DeviceFault { settled: _ } => {}
    }
}

/// Commits a batch. Where it is refused, it is given up.
pub(crate) fn commit<D: Disk>(
    deck: &mut Deck<D>,
    batch: Prepared,
    stamp: Stamp,
) -> Result<(), CommitFailed>
    ensures planned { IsPlanned batch }
    ensures kept { KeptOn D.Disk CountsAny deck.old.disk deck.new.disk }
    ensures unfailed { OnOk result (D.faults deck.new.disk ≡ D.faults deck.old.disk) }
    ensures up { OnOk result ((deck.old.aborted ≡ false) × (deck.new.aborted ≡ false)) }
    ensures numbers { OnOk result (deck.new.log.next ≡ deck.old.log.next + groups_in batch.groups) }
    ensures ended { D.honest deck.new.disk → OnOk result (IsEnded D.newest deck.old
        (map settles batch.batch.handles) deck.new) }
    ensures left { deck.old.aborted ≡ false → D.honest deck.new.disk
        → LeavesOnly D.moment D.left_since deck.old.disk deck.new.disk
        (LeftInCommit D.newest (D.size deck.old.disk) (D.count deck.old.disk) deck.old batch) }
    ensures now { deck.old.aborted ≡ false → D.honest deck.new.disk
        → OnOk result (AllHave D.may_leave deck.new.disk
        (FollowsSome (stood_on D.Disk deck.old) batch.batch.handles batch.groups (groups_in batch.groups)
        (groups_in batch.groups))) }
{
    let _bounds = batch.groups().len(); // for the proof alone: only this method says that the cut is a least one
    match deck.commit_batch(batch, stamp) {
        Ok(_) => Ok(()),
        Err(fault) => {
            give_up_refused(fault);
            Err(CommitFailed)
        }
    }
}
