//! What seats have left is put together.
ghost use Rattle.std.specs.Prelude.{◌≡◌, ℕ, ◌+◌, ◌≤◌, length, map, vec_len};
ghost use Rattle.std.specs.List.{sum_by};
ghost use Rattle.jb_cost.specs.Pieces.{joined};
ghost use Rattle.jb_deck.specs.Done.{Follow, start_of};
ghost use Rattle.jb_desk.specs.Seats.{stops_left, made_left};

use crate::queue_state::QueueState;
use crate::seat::Left;
use jb_board::{Appender, History, OwnEntries, Prefix};
use jb_book::{Marks, Origin};
use jb_deck::{Deck, Entry};
use jb_disk::Disk;
use jb_handle::Words;
use std::sync::ledger::Share;

/// Merges what seats have left into one share, and puts their stops together.
fn merged<H: Origin>(
    history: &History<Words, H>,
    handles: Share<H>,
    lefts: Vec<Left<H>>,
) -> (Share<H>, OwnEntries<Words, H>)
    ensures parts { result.0.parts ≡ handles.parts + vec_len lefts }
    ensures handles { result.0.amount ≡ handles.amount + sum_by stops_left lefts.items }
    ensures made { result.1 ≡ joined (map made_left lefts.items) }
    ensures many { result.0.amount ≡ handles.amount + length result.1 }
{
    let mut all_handles = handles;
    let mut all = history.enter();
    for left in lefts {
        let Left { handles, made } = left;
        all_handles.merge(handles);
        history.join(&mut all, made);
    }
    (all_handles, all)
}

impl<D: Disk, H: Origin> QueueState<D, H> {
    ghost use Rattle.jb_book.specs.CallsToBook.{IsMachineRun};
    ghost use Rattle.jb_book.specs.Marks.{HasShapeMark};
    ghost use Rattle.jb_book.specs.History.{AreAllStops};
    ghost use Rattle.jb_desk.specs.Parts.{ledger_parts};
    ghost use Rattle.jb_desk.specs.Seats.{AddsUp};

    /// Takes it apart where every seat that was given has left: into the book's trail, how many handles
    /// stopped and how many blocks they had touched, which are the sums over what the seats left, the history, which
    /// has all stops of the seats and no others, and the marks that were seen, at one of which the journal had the
    /// book's shape. The history and the trail are those of events that the machine of handles accepts.
    pub fn totals(
        self,
        history: &History<Words, H>,
        lefts: Vec<Left<H>>,
    ) -> (
        Vec<Entry>,
        u64,
        u64,
        Appender<Words, H>,
        Prefix<Deck<D>, Marks<H>>,
    )
        requires parts { H.parts ≡ ledger_parts }
        requires all { vec_len lefts ≡ self.given }
        ensures book { (result.0.items ≡ self.register.book.trail) × (result.1 ≡ self.register.book.shadow.next)
            × (result.2 ≡ self.register.book.changes) }
        ensures tiles { (past : ℕ) × Follow (start_of result.0.items) 0 past result.0.items × (past ≤ result.1) }
        ensures sums { AddsUp lefts.items result.1 result.2 }
        ensures history { (length result.3 ≡ result.1) × AreAllStops result.3 (joined (map made_left lefts.items)) }
        ensures run { IsMachineRun self.register.book.shape result.3 result.0.items }
        ensures journal { HasShapeMark result.4 self.register.book.shape }
    {
        let QueueState {
            register,
            mut handles,
            spare_handles,
            ..
        } = self;
        let (mut spare_handles, all) = merged(history, spare_handles, lefts);
        handles.audit(&mut spare_handles);
        let stops = register.book().next();
        let touched = register.book().changes();
        let (trail, mut appender, seen) = register.end();
        history.audit(&mut appender, all);
        (trail, stops, touched, appender, seen)
    }

    /// Takes it apart, whatever its seats have left: into the history.
    pub fn end(self) -> Appender<Words, H> {
        let (_, appender, _) = self.register.end();
        appender
    }
}
