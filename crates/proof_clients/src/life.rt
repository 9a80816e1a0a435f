//! One life of a journal, up to the crash that ends it.
ghost use Rattle.std.specs.Prelude.{◌≡◌, ◌⊎◌, false, true, IfSome};
ghost use Rattle.jb_plan.specs.Prepare.{IsPlanned};
ghost use Rattle.jb_disk.specs.Faults.{CountsAny};
ghost use Rattle.jb_disk.specs.KeptOn.{KeptOn};
ghost use Rattle.jb_disk.specs.Time.{LeavesOnly};
ghost use Rattle.jb_disk.specs.Throughout.{AllHave};
ghost use Rattle.proof_clients.specs.Lives.{LeftByLife};

use crate::commit::commit;
use jb_block::Stamp;
use jb_deck::Deck;
use jb_disk::Disk;
use jb_handle::{Shape, Stopped};
use jb_plan::{Batch, Prepared, is_batch, prepare};
use std::alloc::Global;

/// These handles as a batch for a journal in which nothing was settled yet, with its plan; none where they are no such
/// batch, no cut of them fits, or there is no memory.
fn planned(alloc: Global, handles: Vec<Stopped>, shape: Shape) -> Option<Prepared>
    ensures planned { IfSome result IsPlanned }
    ensures batch { IfSome result (λ batch. (batch.batch.handles ≡ handles.items)
        × (batch.batch.shape ≡ shape)) }
{
    if !is_batch(0, &handles, shape) {
        return None;
    }
    match prepare(alloc, Batch::of(0, handles, shape)) {
        Ok(prepared) => Some(prepared),
        Err((batch, _)) => {
            let _handles = batch.end();
            None
        }
    }
}

/// Opens the journal of a disk, commits these handles as one batch, checkpoints the oldest transaction if asked to, and
/// gives the disk back, whatever the calls answer; and whether the handles were reported as committed.
pub(crate) fn run<D: Disk>(
    alloc: Global,
    disk: D,
    handles: Vec<Stopped>,
    stamp: Stamp,
    checkpoint: bool,
) -> (D, bool)
    ensures kept { KeptOn D.Disk CountsAny disk result.0 }
    ensures leaves { D.honest result.0 → LeavesOnly D.moment D.left_since disk result.0
        (λ c. D.may_leave disk c
        ⊎ LeftByLife (D.size disk) (D.count disk) (D.newest disk) handles.items false c) }
    ensures ends { D.honest result.0 → result.1 ≡ true → AllHave D.may_leave result.0
        (LeftByLife (D.size disk) (D.count disk) (D.newest disk) handles.items true) }
{
    jb_deck::laws::makes::<D>();
    jb_deck::laws::since::<D>();
    jb_deck::laws::holds::<D>();
    jb_deck::laws::keeps::<D>();
    jb_deck::laws::opening();
    let mut deck = match Deck::open(alloc, disk) {
        Ok(deck) => deck,
        Err((disk, _)) => return (disk, false),
    };
    let Some(batch) = planned(alloc, handles, deck.shape()) else {
        return (deck.close(), false);
    };
    let Ok(()) = commit(&mut deck, batch, stamp) else {
        return (deck.close(), false);
    };
    if !checkpoint {
        return (deck.close(), true);
    }
    let _checked = deck.checkpoint_one();
    (deck.close(), true)
}
