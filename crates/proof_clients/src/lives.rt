//! Lives of a journal in memory, each of which ends with a crash, and with another one while that is recovered.
ghost use Rattle.std.specs.Prelude.{◌≡◌, ◌⊎◌, ℕ, [], false, map, true, IfOk, List};
ghost use Rattle.jb_block.specs.Size.{bytes_of};
ghost use Rattle.jb_disk.specs.Faults.{CountsAny};
ghost use Rattle.jb_disk.specs.History.{newest_of};
ghost use Rattle.jb_disk.specs.Image.{Only};
ghost use Rattle.jb_disk.specs.KeptOn.{KeptOn};
ghost use Rattle.jb_disk.specs.Time.{LeavesOnly};
ghost use Rattle.jb_disk.specs.Throughout.{AllHave};
ghost use Rattle.jb_recover.specs.Outcomes.{RecoversAs};
ghost use Rattle.jb_super.specs.Superblock.{Superblock};
ghost use Rattle.jb_deck.specs.Changes.{DeckChange};
ghost use Rattle.proof_clients.specs.Lives.{HasLives, HoldsChanges, HoldsLife, IsAtRest, LeftByLife};

use crate::life::run;
use jb_block::Stamp;
use jb_disk::{Disk, FuseDisk, MemoryDisk};
use jb_handle::Stopped;
use jb_recover::{RecoverFault, recover};
use std::alloc::Global;

/// A power failure: it comes after this many calls of the disk, and the choice says which version is left of each
/// sector that was written since the last sync ([`MemoryDisk::crash`]).
#[derive(Drop)]
pub struct PowerFailure {
    pub calls: u64,
    pub choice: Vec<u32>,
}

/// A life of a journal: the handles that it commits as one batch, whether it checkpoints the oldest transaction then,
/// the failure that ends it, and one in the recovery after that. A failure that comes after more calls than there are
/// leaves a journal that was closed, or a recovery that has ended.
#[derive(Drop)]
pub struct Life {
    pub handles: Vec<Stopped>,
    pub stamp: Stamp,
    pub checkpoint: bool,
    pub end: PowerFailure,
    pub again: PowerFailure,
}

/// A journal after its lives: its disk, and of each life whether its handles were reported as committed.
#[derive(Drop)]
pub struct Lived {
    pub disk: MemoryDisk,
    pub committed: Vec<bool>,
}

/// Recovers the journal of a disk. Then the journal has these lives, one after the other: it is opened, the handles are
/// committed, and perhaps a transaction is checkpointed; the power fails at any call of the disk, and again at any call
/// of the recovery of what the crash left; and what that left is recovered. The disk that is given back holds the homes
/// as they were after the first recovery, with what the lives changed, in order: of each life its handles, or those of
/// the first groups of them, or none; all of those that were reported as committed. Its superblock is the journal's
/// own, and its numbers count the groups.
///
/// Handles that are no batch for this journal, with tickets from 0 on, are reported as not committed.
///
/// # Errors
///
/// The fault of a recovery that was not cut short, or `Memory` where there is none for the disk after a crash or for
/// the report.
pub fn run_lives(alloc: Global, disk: MemoryDisk, lives: Vec<Life>) -> Result<Lived, RecoverFault>
    /// Lives one after another, as many as a list has. Each ends with a crash at any call, a recovery that crashes at
    /// any call, and a recovery. The disk holds, on the homes as the first recovery left them, of each life the first
    /// groups of its handles, in order, with all that were reported as committed. Its superblock is the journal's own,
    /// and its number counts the groups.
    ensures lives { IfOk result (λ lived. HasLives (bytes_of disk.size) disk.count
        (map (λ life. life.handles.items) lives.items) lived.committed.items (newest_of disk) (newest_of lived.disk)) }
{
    jb_recover::laws::recovered();
    let mut disk = disk;
    recover(alloc, &mut disk)?;
    disk.always_sound();
    let mut committed = Vec::new(alloc);
    for life in lives {
        let (next, reported) = live(alloc, disk, life)?;
        disk = next;
        let Ok(()) = committed.push(reported) else {
            return Err(RecoverFault::Memory);
        };
    }
    Ok(Lived { disk, committed })
}

/// One life of a journal that was recovered, the crash that ends it, one in the recovery after that, and a recovery
/// that ends; and whether its handles were reported as committed.
fn live(alloc: Global, disk: MemoryDisk, life: Life) -> Result<(MemoryDisk, bool), RecoverFault>
    ensures rest { IsAtRest disk → IfOk result (λ lived. IsAtRest lived.0) }
    ensures same { IfOk result (λ lived. (bytes_of lived.0.size ≡ bytes_of disk.size)
        × (lived.0.count ≡ disk.count)) }
    ensures lives { IsAtRest disk → IfOk result (λ lived. (own : Superblock) (last : ℕ) (before : ℕ → List ℕ)
        (done : List DeckChange)
        → HoldsChanges own last (bytes_of disk.size) disk.count before done (newest_of disk)
        → HoldsLife own last (bytes_of disk.size) disk.count before done life.handles.items lived.1
        (newest_of lived.0)) }
{
    jb_deck::laws::holds_on();
    jb_recover::laws::recovered();
    jb_disk::laws::runs_as_calls::<FuseDisk<MemoryDisk>>(); // a failure comes after this many blocks
    let Life {
        handles,
        stamp,
        checkpoint,
        end,
        again,
    } = life;
    let (last, committed) = run(
        alloc,
        FuseDisk::of(disk, end.calls),
        handles,
        stamp,
        checkpoint,
    );
    let last = last.into_inner();
    last.always_sound();
    let crashed = last.crash(&end.choice)?;
    let cut = recover_in_part(alloc, FuseDisk::of(crashed, again.calls)).into_inner();
    cut.always_sound();
    let mut disk = cut.crash(&again.choice)?;
    recover(alloc, &mut disk)?;
    disk.always_sound();
    Ok((disk, committed))
}

/// The disk after a recovery, whatever that answers.
fn recover_in_part<D: Disk>(alloc: Global, disk: D) -> D
    ensures kept { KeptOn D.Disk CountsAny disk result }
    ensures leaves { D.honest result → Only (D.newest disk) (D.may_leave disk)
        → LeavesOnly D.moment D.left_since disk result
        (RecoversAs (D.size disk) (D.count disk) (D.newest disk)) }
{
    let mut disk = disk;
    let _fault = recover(alloc, &mut disk).err();
    disk
}
