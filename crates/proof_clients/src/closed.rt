//! A batch is committed, and the journal is closed.
ghost use Rattle.std.specs.Prelude.{◌∷◌, ◌⊎◌, [], IfOk};
ghost use Rattle.proof_clients.specs.Client.{LeavesAll};
ghost use Rattle.proof_clients.specs.Programs.{all_changes, commits, disk_either, HasChanges, LeftByProgram};
ghost use Rattle.jb_disk.specs.Faults.{CountsAny};
ghost use Rattle.jb_disk.specs.KeptOn.{KeptOn};
ghost use Rattle.jb_disk.specs.Time.{LeavesOnly};
ghost use Rattle.jb_disk.specs.Throughout.{AllHave};
ghost use Rattle.jb_deck.specs.GroupsOfBatch.{groups_in};

use crate::commit::{commit, give_up};
use jb_block::Stamp;
use jb_deck::Deck;
use jb_disk::Disk;
use jb_plan::Prepared;
use std::alloc::Global;

/// Opens the journal of a disk, commits a batch and closes it. Whatever a crash leaves of the disk afterwards has the
/// journal's own superblock, and is recovered to the homes as they were at first, with all handles of the batch.
///
/// # Errors
///
/// The disk, where the batch is not committed: the journal was not opened, the batch was refused, or a call of the disk
/// failed. Whatever a crash leaves of it could have been left before, or is the same journal, recovered to the homes as
/// they were at first with the handles of the first groups of the batch.
pub fn commit_and_close<D: Disk>(
    alloc: Global,
    disk: D,
    batch: Prepared,
    stamp: Stamp,
) -> Result<D, D>
    /// With `ends`: A batch, and the journal is closed: whatever a crash leaves then has the journal's own superblock,
    /// and is recovered to all handles of the batch, at the number that comes next.
    ensures all { D.honest (disk_either result) → IfOk result (λ closed. LeavesAll D.may_leave (D.size disk)
        (D.count disk) (D.newest disk) batch.batch.handles (groups_in batch.groups) closed) }
    /// Of clients that commit, write and close, whatever they answer, with the disk of an `Err` too: what a crash
    /// leaves at any moment could have been left before, or is recovered to a prefix of what the client changes: whole
    /// batches and writes, and then the first groups of a batch, or some sectors of the data. Nothing has changed but
    /// the superblock, the log and the homes.
    ensures leaves { D.honest (disk_either result) → LeavesOnly D.moment D.left_since disk (disk_either result)
        (λ c. D.may_leave disk c ⊎ LeftByProgram (D.size disk) (D.count disk) (D.newest disk) (commits batch ∷ []) c) }
    ensures ends { D.honest (disk_either result) → IfOk result (λ closed. AllHave D.may_leave closed
        (HasChanges (D.size disk) (D.count disk) (D.newest disk) (all_changes (commits batch ∷ []))
        (groups_in batch.groups))) }
    ensures kept { KeptOn D.Disk CountsAny disk (disk_either result) }
{
    jb_deck::laws::makes::<D>();
    jb_deck::laws::since::<D>();
    jb_deck::laws::holds::<D>();
    jb_deck::laws::keeps::<D>();
    jb_deck::laws::opening();
    let mut deck = match Deck::open(alloc, disk) {
        Ok(deck) => deck,
        Err((disk, _)) => {
            give_up(batch);
            return Err(disk);
        }
    };
    let _shape = deck.shape(); // for the proof alone: only this method says that it is the journal's
    match commit(&mut deck, batch, stamp) {
        Ok(()) => Ok(deck.close()),
        Err(_) => Err(deck.close()),
    }
}
