//! A home block that a batch freed is written in its place, without the log.
ghost use Rattle.std.specs.Prelude.{◌≡◌, ◌+◌, ◌∷◌, ◌⊎◌, [], IfOk, OnOk};
ghost use Rattle.jb_disk.specs.Time.{LeavesOnly};
ghost use Rattle.jb_disk.specs.Throughout.{AllHave};
ghost use Rattle.jb_deck.specs.GroupsOfBatch.{groups_in};
ghost use Rattle.proof_clients.specs.Programs.{all_changes, commits, disk_either, HasChanges, LeftByProgram, writes};

use crate::commit::{commit, give_up};
use jb_block::Stamp;
use jb_deck::Deck;
use jb_disk::Disk;
use jb_plan::Prepared;
use std::alloc::Global;

/// Opens the journal of a disk, commits a batch, writes data into a home block that it freed, reads it into `buf`,
/// takes what it may of the trail, commits a second batch and closes the journal. What is read is the data. Whatever a
/// crash leaves at any moment could have been left before, or is recovered to a prefix of all this: in the end to
/// all of it, so that the home holds the data, unless the second batch has a word on it.
///
/// # Errors
///
/// The disk, where a call is refused or a call of the disk fails. What is said of a crash holds of it too.
pub fn reuse_home<D: Disk>(
    alloc: Global,
    disk: D,
    first: Prepared,
    home: u64,
    bytes: &[u8],
    buf: &mut [u8],
    second: Prepared,
    stamp: Stamp,
) -> Result<D, D>
    ensures read { D.honest (disk_either result) → OnOk result (buf.new ≡ bytes.now) }
    ensures leaves { D.honest (disk_either result) → LeavesOnly D.moment D.left_since disk (disk_either result)
        (λ c. D.may_leave disk c ⊎ LeftByProgram (D.size disk) (D.count disk) (D.newest disk)
        (commits first ∷ writes home bytes.now ∷ commits second ∷ []) c) }
    /// A batch, data written into a home that it freed, a read of it, entries taken from the trail, a second batch, and
    /// the journal is closed: the data is read (its clause `read`), and whatever a crash leaves then is recovered to
    /// all of this.
    ensures ends { D.honest (disk_either result) → IfOk result (λ closed. AllHave D.may_leave closed
        (HasChanges (D.size disk) (D.count disk) (D.newest disk)
        (all_changes (commits first ∷ writes home bytes.now ∷ commits second ∷ []))
        (groups_in first.groups + groups_in second.groups))) }
{
    jb_deck::laws::makes::<D>();
    jb_deck::laws::since::<D>();
    jb_deck::laws::holds::<D>();
    jb_deck::laws::keeps::<D>();
    jb_deck::laws::reads::<D>();
    jb_deck::laws::opening();
    let mut deck = match Deck::open(alloc, disk) {
        Ok(deck) => deck,
        Err((disk, _)) => {
            give_up(first);
            give_up(second);
            return Err(disk);
        }
    };
    let _shape = deck.shape(); // for the proof alone: only this method says that it is the journal's
    let Ok(()) = commit(&mut deck, first, stamp) else {
        give_up(second);
        return Err(deck.close());
    };
    let Ok(()) = deck.write_free(home, bytes) else {
        give_up(second);
        return Err(deck.close());
    };
    let Ok(()) = deck.read_home(home, buf) else {
        give_up(second);
        return Err(deck.close());
    };
    let Ok(_) = deck.take_trail(u64::MAX) else {
        give_up(second);
        return Err(deck.close());
    };
    match commit(&mut deck, second, stamp) {
        Ok(()) => Ok(deck.close()),
        Err(_) => Err(deck.close()),
    }
}
