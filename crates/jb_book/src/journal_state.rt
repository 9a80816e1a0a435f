ghost use Rattle.std.specs.Prelude.{◌≡◌, [], ◌∷◌, false, length, All, IfOk, OnErr};

use crate::checkpoint::CheckpointRound;
use crate::{Histories, Marks, Origin, Sights};
use jb_block::Memory;
use jb_board::{Appender, Prefix};
use jb_deck::{BatchFault, Checked, CheckpointFault, Deck, Done, Entry, Prepared, ReadHomeFault};
use jb_disk::{Clock, Disk};
use jb_handle::Words;
use std::marker::{Model, PhantomData};

/// How many transactions a round at a level writes home at most: while it does so, nothing is committed.
const MOST_AT_ONCE: usize = 64;

/// What the second lock of a desk guards: the journal on its disk, and the clock that stamps its
/// groups, with a prefix of the history of stops, and the right to add marks. The journal is as it must be since
/// the desk was started, and was given the first handles of this history. Its marks last: a crash at any moment since
/// one leaves all that was settled then.
#[derive(Drop)]
pub struct JournalState<D: Disk, C: Clock, H: Origin> {
    deck: Deck<D>,
    clock: C,
    prefix: Prefix<Words, H>,
    appender: Appender<Deck<D>, Marks<H>>,
    origin: PhantomData<H>,
}

impl<D: Disk, C: Clock, H: Origin> Model for JournalState<D, C, H> {
    ghost use Rattle.std.specs.Coded.{codes};
    ghost use Rattle.jb_handle.specs.Word.{words_code};
    ghost use Rattle.jb_book.specs.History.{IsStop};
    ghost use Rattle.jb_book.specs.SinceMark.{IsMarkedOf};
    ghost use Rattle.jb_book.specs.JournalValue.{JournalAndClock, journal_and_clock};

    ghost Value = { JournalAndClock D C };

    ghost coded = { Prim.hlevel (codes, words_code, D.code, C.code) };

    ghost view = { λ j. journal_and_clock j.deck j.clock };

    ghost invariant = { λ j. IsMarkedOf D.Disk H.begun (IsStop H.begun j.prefix) j.appender j.deck };
}

impl<D: Disk, C: Clock, H: Origin> JournalState<D, C, H> {
    ghost use Rattle.jb_block.specs.declared.stamp.Stamp.{Stamp};
    ghost use Rattle.jb_deck.specs.Checkpoints.{as_run, AnswersRun};
    ghost use Rattle.jb_deck.specs.CommitBatch.{AnswersBatch};
    ghost use Rattle.jb_deck.specs.ReadHome.{AnswersRead};
    ghost use Rattle.jb_deck.specs.TakeTrail.{MayTakeFirst, TakesTrail, oldest_number};
    ghost use Rattle.jb_book.specs.Journal.{AnswersAt, ChecksAt, ChecksRound, EndsRound, GivesTrail, ReadsHome};
    ghost use Rattle.jb_book.specs.Rounds.{CommitsAs};
    ghost use Rattle.jb_book.specs.MachineTie.{TellsFirst};
    ghost use Rattle.jb_handle.specs.Tickets.{TicketsFrom};
    ghost use Rattle.jb_book.specs.CallsToBook.{IsInHistory};
    ghost use Rattle.jb_book.specs.Marks.{SeesMore};
    ghost use Rattle.jb_book.specs.History.{IsStop};
    ghost use Rattle.jb_book.specs.Origin.{AreStops};
    ghost use Rattle.jb_book.specs.SinceMark.{IsMarkedOf, MarksSettled};
    ghost use Rattle.jb_book.specs.Since.{IsSince};
    ghost use Rattle.jb_book.specs.JournalValue.{journal_and_clock};

    /// A journal that is as it must be since the start and has committed nothing, a clock, what was seen
    /// of the history, and the right to add marks, of which there is one: the journal as it is.
    pub fn new(
        deck: Deck<D>,
        clock: C,
        prefix: Prefix<Words, H>,
        appender: Appender<Deck<D>, Marks<H>>,
    ) -> JournalState<D, C, H>
        requires marked { appender ≡ deck ∷ [] }
        requires fresh { deck.trail ≡ [] }
        requires running { deck.aborted ≡ false }
        requires begun { IsSince D.Disk H.begun deck }
        ensures { result ≡ journal_and_clock deck clock }
    {
        JournalState {
            deck,
            clock,
            prefix,
            appender,
            origin: PhantomData,
        }
    }

    /// Commits a batch with the clock's stamp. Its handles are those of the history, as was seen. Whatever came of it,
    /// the journal is marked then, and the marks are seen.
    ///
    /// # Errors
    ///
    /// Those of the journal's own commit.
    pub fn commit(
        &mut self,
        prepared: Prepared,
        histories: &Histories<D, H>,
        mut prefix: Prefix<Words, H>,
    ) -> (Result<Done, BatchFault>, Sights<D, H>)
        requires stops { AreStops H.begun prepared.batch.handles }
        requires history { All (IsInHistory prefix) prepared.batch.handles }
        ensures answers { (stamp : Stamp) × C.tells self.old.clock stamp
            × AnswersBatch (D.faults self.old.deck.disk) (D.faults self.new.deck.disk) prepared stamp self.old.deck
            self.new.deck result.0 }
        ensures tells { CommitsAs prepared result.0 × TellsFirst prepared result.0
            × TicketsFrom prepared.batch.first prepared.batch.handles }
        ensures round { EndsRound D.Disk H.begun prepared result.0 }
        ensures clock { self.new.clock ≡ self.old.clock }
        ensures stops { result.1.stops ≡ prefix }
        /// The marks are seen of a journal after its round: its groups are in the trail of one, and where it has
        /// failed, one is of a failed journal. Edit: `commit_shows_the_marks_before_its_own`.
        ensures marked { MarksSettled result.1.marks result.0 }
    {
        histories.stops.learn(&mut self.prefix, &mut prefix);
        // for the proof alone: only the clauses of these methods say that the cut is a least one, and that the handles'
        // tickets count up
        let _groups = prepared.groups();
        let _handles = prepared.batch().handles();
        let stamp = self.clock.now();
        let result = self.deck.commit_batch(prepared, stamp);
        // for the proof alone: only the clause of this method says that the entries leave no gap
        let _trail = self.deck.trail();
        let marks = histories.mark(&mut self.appender, &self.deck);
        (
            result,
            Sights {
                stops: prefix,
                marks,
            },
        )
    }

    /// Writes the oldest committed group home.
    ///
    /// # Errors
    ///
    /// Those of the journal's own checkpoint.
    pub fn checkpoint(&mut self) -> Result<Checked, CheckpointFault>
        /// A checkpoint under this lock is the journal's own, once: it answers by the journal as it was, and leaves
        /// what that makes of it.
        ensures answers { AnswersRun 1 (D.faults self.old.deck.disk) (D.faults self.new.deck.disk) self.old.deck
            self.new.deck (as_run result) }
        ensures round { ChecksRound D.Disk H.begun result }
        ensures clock { self.new.clock ≡ self.old.clock }
    {
        self.deck.checkpoint_one()
    }

    /// Writes the committed groups home together, at most 64 of them, where this many blocks of the log are in use at
    /// least.
    ///
    /// # Errors
    ///
    /// Those of the journal's own checkpoint.
    pub fn checkpoint_at(&mut self, level: u32) -> Result<CheckpointRound, CheckpointFault>
        ensures answers { AnswersAt level (D.faults self.old.deck.disk) (D.faults self.new.deck.disk) self.old.deck
            self.new.deck result }
        ensures round { ChecksAt D.Disk H.begun level result }
        ensures clock { self.new.clock ≡ self.old.clock }
    {
        let in_use = self.deck.in_use();
        if !self.deck.aborted() && in_use < level {
            return Ok(CheckpointRound::Low(in_use));
        }
        match self.deck.checkpoint_up_to(MOST_AT_ONCE) {
            Ok(run) => Ok(CheckpointRound::Home(run)),
            Err(fault) => Err(fault),
        }
    }

    /// Reads a home block as it is. All that the journal was given is seen then; what was settled at the marks that
    /// were seen is settled in it. The journal is marked then, whatever came of the read, and the mark is seen: a disk
    /// that is honest later was so in the read.
    ///
    /// # Errors
    ///
    /// Those of the journal's own read.
    pub fn read(
        &mut self,
        histories: &Histories<D, H>,
        seen: &mut Sights<D, H>,
        home: u64,
        buf: &mut [u8],
    ) -> Result<(), ReadHomeFault>
        ensures answers { AnswersRead (D.size self.old.deck.disk) (D.faults self.old.deck.disk)
            (D.faults self.new.deck.disk) self.old.deck self.new.deck home (length buf.old) result }
        ensures home { ReadsHome D.Disk H.begun seen.new.stops seen.old.marks seen.new.marks home (length buf.old)
            buf.new result }
        ensures sees { SeesMore seen.old seen.new }
        ensures clock { self.new.clock ≡ self.old.clock }
    {
        histories.stops.learn(&mut seen.stops, &mut self.prefix);
        let marks = histories.marks.again(&mut seen.marks);
        histories.marks.check(&mut self.appender, marks);
        let result = self.deck.read_home(home, buf);
        // for the proof alone: only the clause of this method says that the entries leave no gap
        let _trail = self.deck.trail();
        let mut shown = histories.mark(&mut self.appender, &self.deck);
        histories.marks.learn(&mut seen.marks, &mut shown);
        result
    }

    /// Takes entries from the front of the trail: those of groups that are home, with no ticket from `past` on. The
    /// last entry stays.
    ///
    /// # Errors
    ///
    /// Those of the journal's own call.
    pub fn take_trail(&mut self, past: u64) -> Result<Vec<Entry>, Memory>
        ensures taken { IfOk result (λ taken. TakesTrail past self.old.deck self.new.deck taken.items) }
        ensures refused { OnErr result ((self.new.deck ≡ self.old.deck)
            × MayTakeFirst (oldest_number self.old.deck) past self.old.deck.trail) }
        ensures gives { GivesTrail D.Disk H.begun result }
        ensures clock { self.new.clock ≡ self.old.clock }
    {
        // for the proof alone: only the clause of this method says that the entries leave no gap
        let _trail = self.deck.trail();
        self.deck.take_trail(past)
    }

    /// Takes it apart, into the journal, the clock, and what was seen of the history of stops. The marks that were seen
    /// last.
    pub fn end(
        self,
        histories: &Histories<D, H>,
        marks: Prefix<Deck<D>, Marks<H>>,
    ) -> (Deck<D>, C, Prefix<Words, H>)
        ensures parts { (result.0 ≡ self.deck) × (result.1 ≡ self.clock) }
        /// When the lock is taken apart the marks that were seen last: if the disk of the journal is honest then, it
        /// was so at each of them, and what a crash leaves at any moment since one is recovered to the handles that
        /// were settled at it, at least.
        ensures since { IsMarkedOf D.Disk H.begun (IsStop H.begun result.2) marks result.0 }
    {
        let JournalState {
            deck,
            clock,
            prefix,
            mut appender,
            ..
        } = self;
        histories.marks.check(&mut appender, marks);
        (deck, clock, prefix)
    }
}
