//! What a load did is counted up.
ghost use Rattle.std.specs.Prelude.{◌≡◌, ℕ, ◌<◌, ◌^◌, ◌↔◌, IsTrue, IfErr, IfOk};
ghost use Rattle.std.specs.List.{sum_by};
ghost use Rattle.jb_deck.specs.Done.{Follow, start_of};
ghost use Rattle.jb_tool.specs.FirstRefused.{earlier_refused, first_refused};
ghost use Rattle.jb_tool.specs.Loads.{CountsRun};
ghost use Rattle.jb_tool.specs.declared.loading.fault.LoadFault.TheVariants.{Accounts};

use crate::loading::fault::LoadFault;
use crate::loading::loaded::{Loaded, Refused};
use jb_journal::{Entry, Ran};

/// What a load did whose journal was run so, with a queue of this many handles; and the disk.
///
/// # Errors
/// `Accounts` where entries were taken from the trail, which no worker of a load does.
pub(crate) fn count_up<D: Drop>(
    queued: u64,
    ran: Ran<Option<Refused>, D>,
) -> Result<(Loaded, D), LoadFault>
    requires { Follow (start_of ran.trail.items) 0 ran.settled ran.trail.items }
    ensures counts { IfOk result (λ told. CountsRun queued ran told.0) }
    ensures disk { IfOk result (λ told. told.1 ≡ ran.disk) }
    ensures follows { IfOk result (λ _. Follow 0 0 ran.settled ran.trail.items) }
    ensures faults { IfErr result (λ fault. fault ≡ Accounts) }
{
    let Ran {
        disk,
        answers,
        handles,
        settled,
        changes,
        trail,
        commit,
        checkpoint,
        ..
    } = ran;
    if !begins_at_first(&trail) {
        return Err(LoadFault::Accounts);
    }
    let loaded = Loaded {
        queued,
        handles,
        changes,
        settled,
        groups: trail.len() as u64,
        blocks: blocks_of(&trail),
        refused: first_of(&answers),
        commit,
        checkpoint,
    };
    Ok((loaded, disk))
}

/// Whether a trail begins at the ticket 0, as it does where no entry was taken from it.
fn begins_at_first(trail: &[Entry]) -> bool
    ensures { IsTrue result ↔ (start_of trail.now ≡ 0) }
{
    match trail.first() {
        Some(entry) => entry.first == 0,
        None => true,
    }
}

/// How many log blocks the groups of a trail take.
fn blocks_of(trail: &[Entry]) -> u64
    requires { (past : ℕ) × Follow 0 0 past trail.now }
    ensures { result ≡ sum_by (λ e. e.blocks) trail.now }
{
    let mut blocks = 0;
    for entry in trail {
        blocks += widened(entry.blocks, entry.number);
    }
    blocks
}

/// A group's blocks in 64 bits. They have 32, as the group's number has.
fn widened(blocks: u32, _number: u32) -> u64
    ensures value { result ≡ blocks }
    ensures narrow { (blocks < 2 ^ 32) × (_number < 2 ^ 32) }
{
    // `_number` is for the proof alone: that it has 32 bits is known of a parameter, and not of an entry's field
    u64::from(blocks)
}

/// Of what each worker has refused, the handle that is earliest in the queue.
fn first_of(answers: &[Option<Refused>]) -> Option<Refused>
    ensures { result ≡ first_refused answers.now }
{
    let mut first = None;
    for refused in answers {
        first = earlier(first, *refused);
    }
    first
}

/// The one of two refused handles that is earlier in the queue.
fn earlier(one: Option<Refused>, other: Option<Refused>) -> Option<Refused>
    ensures { result ≡ earlier_refused one other }
{
    match (one, other) {
        (Some(one), Some(other)) if other.handle < one.handle => Some(other),
        (Some(one), _) => Some(one),
        (None, other) => other,
    }
}
