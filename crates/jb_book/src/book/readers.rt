//! What a book has.
use crate::book::Book;
use crate::follow::number_in;
use crate::origin::Origin;
use jb_board::{Appender, History, OwnEntries};
use jb_deck::Entry;
use jb_handle::{Shape, Words};

impl<H: Origin> Book<H> {
    ghost use Rattle.std.specs.Prelude.{◌≡◌, ℕ, ◌<◌, ◌≤◌, ◌^◌, ◌↔◌, ◌⊎◌, List};
    ghost use Rattle.std.specs.Prelude.{[], ◌∷◌, ◌++◌, length, IfSome, IfNone, IsTrue};
    ghost use Rattle.jb_handle.specs.declared.stopped.Stopped.{Stopped};
    ghost use Rattle.jb_board.specs.HistoryRule.{with_last};
    ghost use Rattle.jb_book.specs.Account.{IsAccountSound, IsOver, IsSettledBy, CanTake};
    ghost use Rattle.jb_book.specs.Shadow.{reserved_in};
    ghost use Rattle.jb_deck.specs.Done.{Follow, start_of};

    /// The shape of the journal that its handles are for.
    pub fn shape(&self) -> Shape
        ensures { result ≡ self.now.shape }
    {
        self.shape
    }

    /// The next ticket: how many handles have stopped.
    pub fn next(&self) -> u64
        ensures value { result ≡ self.now.shadow.next }
        ensures few { result ≤ 2 ^ 61 }
    {
        self.next
    }

    /// How many home blocks the handles that stopped had touched, added up.
    pub fn changes(&self) -> u64
        ensures value { result ≡ self.now.changes }
        ensures few { result ≤ 2 ^ 61 }
    {
        self.changes
    }

    /// The tickets below it are settled or taken.
    pub fn taken(&self) -> u64
        ensures { result ≡ self.now.shadow.taken }
    {
        self.taken
    }

    /// The tickets below it are settled.
    pub fn settled(&self) -> u64
        ensures { result ≡ self.now.shadow.settled }
    {
        self.settled
    }

    /// The credits of the open, the queued and the taken handles. A book is sound.
    pub fn reserved(&self) -> u64
        ensures value { result ≡ reserved_in self.now.shadow }
        ensures sound { IsAccountSound self.now }
    {
        self.open_sum + self.line_sum
    }

    /// The groups that are settled and were not taken, in the order of their tickets.
    pub fn trail(&self) -> &[Entry]
        ensures { result.now ≡ self.now.trail }
    {
        &self.trail
    }

    /// Whether the journal has failed.
    pub fn is_aborted(&self) -> bool
        ensures { result ≡ self.now.aborted }
    {
        self.aborted
    }

    /// Whether the queue may be taken: a handle waits, and no batch is out.
    pub fn can_take(&self) -> bool
        ensures { IsTrue result ↔ CanTake self.now }
    {
        !self.aborted && self.taken == self.settled && !self.queue.is_empty()
    }

    /// Whether nothing more can happen: the book is shut, and no handle is open, queued or taken.
    pub fn is_over(&self) -> bool
        ensures { IsTrue result ↔ IsOver self.now }
    {
        self.shut && self.seats.is_empty() && self.credits.is_empty()
    }

    /// Whether no handle is begun any more.
    pub fn is_shut(&self) -> bool
        ensures { result ≡ self.now.shut }
    {
        self.shut
    }

    /// The number of the transaction that settled a ticket. `None` where it is not settled, or where the group's entry
    /// was taken.
    pub fn number_of(&self, ticket: u64) -> Option<u32>
        ensures some { IfSome result (λ number. IsSettledBy self.now.trail ticket number) }
        ensures settled { IfSome result (λ _. (ticket < self.now.shadow.settled) × (ticket < 2 ^ 61)) }
        ensures given { IfSome result (λ _. ticket < self.now.shadow.next) }
        ensures none { IfNone result ((ticket < start_of self.now.trail) ⊎ (self.now.shadow.settled ≤ ticket)) }
    {
        if ticket < self.start() {
            return None;
        }
        number_in(&self.trail, ticket)
    }

    /// Takes the book apart, into its trail.
    pub fn into_trail(self) -> Vec<Entry>
        ensures value { result.items ≡ self.trail }
        ensures tiles { (past : ℕ) × Follow (start_of result.items) 0 past result.items × (past ≤ self.shadow.next) }
    {
        let Book { trail, .. } = self;
        trail
    }

    /// Adds the words of the handle that stopped last to the history of stops, as made for this token.
    pub(crate) fn record_last(
        &self,
        history: &History<Words, H>,
        appender: &mut Appender<Words, H>,
        made: &mut OwnEntries<Words, H>,
    )
        requires { 0 < length self.now.shadow.queue }
        ensures { (before : List Stopped) (last : Stopped) → self.now.shadow.queue ≡ before ++ last ∷ []
            → (appender.new ≡ with_last appender.old last.words)
            × (made.new ≡ with_last made.old (length appender.old, last.words)) }
    {
        history.add(appender, made, &self.queue[self.queue.len() - 1].words);
    }
}
