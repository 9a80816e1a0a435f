//! Three batches, with a checkpoint before the last one.
ghost use Rattle.std.specs.Prelude.{IfOk, ◌+◌, ◌∷◌, ◌⊎◌, ◌++◌, []};
ghost use Rattle.jb_disk.specs.Time.{LeavesOnly};
ghost use Rattle.jb_deck.specs.GroupsOfBatch.{groups_in};
ghost use Rattle.proof_clients.specs.Client.{LeavesAll};
ghost use Rattle.proof_clients.specs.Programs.{commits, disk_after, LeftByProgram};

use crate::commit::{commit, give_up};
use jb_block::Stamp;
use jb_deck::Deck;
use jb_disk::Disk;
use jb_plan::Prepared;
use std::alloc::Global;

/// Opens the journal of a disk, commits two batches, checkpoints the oldest transaction and commits a third batch.
/// Whatever a crash leaves of the disk afterwards has the journal's own superblock, and is recovered to the homes as
/// they were at first, with all handles of the three batches.
///
/// # Errors
///
/// The disk, where the third batch is not committed: the journal was not opened, a batch was refused, there was nothing
/// to checkpoint, or a call of the disk failed. Whatever a crash leaves of it could have been left before, or is the
/// same journal, recovered to some whole batches, in order, and the first groups of the next one.
pub fn commit_three<D: Disk + Drop>(
    alloc: Global,
    disk: D,
    first: Prepared,
    second: Prepared,
    third: Prepared,
    stamp: Stamp,
) -> Result<Deck<D>, D>
    /// Two batches, a checkpoint and a third batch: whatever a crash leaves then has the journal's own superblock, and
    /// is recovered to all handles of the three, at the number that comes next.
    ensures all { D.honest (disk_after result) → IfOk result (λ deck. LeavesAll D.may_leave (D.size disk)
        (D.count disk) (D.newest disk) (first.batch.handles ++ second.batch.handles ++ third.batch.handles)
        (groups_in first.groups + groups_in second.groups + groups_in third.groups) deck.disk) }
    ensures leaves { D.honest (disk_after result) → LeavesOnly D.moment D.left_since disk (disk_after result)
        (λ c. D.may_leave disk c ⊎ LeftByProgram (D.size disk) (D.count disk) (D.newest disk)
        (commits first ∷ commits second ∷ commits third ∷ []) c) }
{
    jb_deck::laws::makes::<D>();
    jb_deck::laws::since::<D>();
    jb_deck::laws::holds::<D>();
    jb_deck::laws::keeps::<D>();
    jb_deck::laws::opening();
    let mut deck = match Deck::open(alloc, disk) {
        Ok(deck) => deck,
        Err((disk, _)) => {
            give_up(first);
            give_up(second);
            give_up(third);
            return Err(disk);
        }
    };
    let _shape = deck.shape(); // for the proof alone: only this method says that it is the journal's
    let Ok(()) = commit(&mut deck, first, stamp) else {
        give_up(second);
        give_up(third);
        return Err(deck.close());
    };
    let Ok(()) = commit(&mut deck, second, stamp) else {
        give_up(third);
        return Err(deck.close());
    };
    let Ok(_) = deck.checkpoint_one() else {
        give_up(third);
        return Err(deck.close());
    };
    match commit(&mut deck, third, stamp) {
        Ok(()) => Ok(deck),
        Err(_) => Err(deck.close()),
    }
}
