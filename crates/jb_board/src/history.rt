ghost use Rattle.std.specs.Prelude.{◌≡◌, ℕ, List, [], ◌∷◌, ◌++◌, length, All};
ghost use Rattle.std.specs.List.{sum_by};
ghost use Rattle.jb_board.specs.View.{writer};

use crate::history_rule::Law;
use crate::history_steps::{Add, Enter, Entries, Observe, ShareSeen, Tell};
use crate::place::Place;
use crate::tokens::{Appender, OwnEntries, Prefix};
use crate::view::View;
use atomic_table::{Seat, Table};
use std::alloc::{AllocError as Memory, Global};
use std::marker::{Model, PhantomData};

/// A new history, which has no name yet.
#[derive(Drop)]
pub struct NewHistory<E> {
    table: Table<E, View<E>, (), Law, Global>,
    seat: Seat<E, View<E>>,
    ghost one_word: { table.shared.table_id.words ≡ 1 },
    ghost same: { seat.table_id ≡ table.shared.table_id },
    ghost first: { seat.me ≡ (writer [], []) },
}

impl<E> NewHistory<E> {
    ghost use Rattle.jb_board.specs.History.{history_id};

    /// A history with no entry.
    ///
    /// # Errors
    ///
    /// `Memory` where there is none.
    pub fn new(alloc: Global) -> Result<NewHistory<E>, Memory> {
        let (table, seat) = Table::of_words(alloc, &[0], &())?;
        Ok(NewHistory { table, seat })
    }
}

impl<E> NewHistory<E> {
    ghost use Rattle.jb_board.specs.History.{history_id};

    /// The history with its name, and the right to add to it.
    pub fn named<L: Place>(self) -> (History<E, L>, Appender<E, L>)
        requires { history_id self ≡ L.history }
        ensures { result.1 ≡ [] }
    {
        let NewHistory { table, seat } = self;
        let place = PhantomData;
        (
            History { table, place },
            Appender {
                seat,
                place: PhantomData,
            },
        )
    }
}

/// What threads share of a history. Its entries exist in contracts only, and have no bytes.
#[derive(Drop)]
pub struct History<E, L: Place> {
    table: Table<E, View<E>, (), Law, Global>,
    place: PhantomData<L>,
}

impl<E, L: Place> Model for History<E, L> {
    ghost Value = { Unit {0} };

    ghost view = { λ h. tt };

    ghost invariant = { λ h. (h.table.shared.table_id ≡ L.history) × (h.table.shared.table_id.words ≡ 1) };
}

impl<E, L: Place> History<E, L> {
    ghost use Rattle.jb_board.specs.HistoryRule.{with_last, with_places, IsFirstPart, StandsIn};
    ghost use Rattle.jb_board.specs.HistorySteps.{Sees};
    ghost use Rattle.jb_board.specs.View.{only_mine, only_seen, saw, told_by, without_mine};

    /// A token for which no entry was made.
    pub fn enter(&self) -> OwnEntries<E, L>
        ensures { result ≡ [] }
    {
        let (_, seat) = self.table.shared.load_new_seat::<Enter>(0);
        OwnEntries {
            seat,
            place: PhantomData,
        }
    }

    /// Adds an entry, which is made for this token.
    pub fn add(&self, appender: &mut Appender<E, L>, made: &mut OwnEntries<E, L>, entry: &E)
        /// With `made`: An entry that is added is the last one of the history, and is one more of the token's with its
        /// place.
        ensures whole { appender.new ≡ with_last appender.old entry.now }
        ensures made { made.new ≡ made.old ++ (length appender.old, entry.now) ∷ [] }
    {
        self.table
            .shared
            .compare_exchange_with::<Add>(&mut appender.seat, 0, 0, 0, entry);
        let one = self.take_entries(&mut appender.seat);
        self.tell(&mut made.seat, one);
    }

    /// The history as it is.
    pub fn show(&self, appender: &mut Appender<E, L>) -> Prefix<E, L>
        ensures prefix { result ≡ appender.old }
        ensures kept { appender.new ≡ appender.old }
    {
        let seat = self.share(&mut appender.seat);
        Prefix {
            seat,
            place: PhantomData,
        }
    }

    /// The same prefix once more.
    pub fn again(&self, prefix: &mut Prefix<E, L>) -> Prefix<E, L>
        ensures prefix { result ≡ prefix.old }
        ensures kept { prefix.new ≡ prefix.old }
    {
        let seat = self.share(&mut prefix.seat);
        Prefix {
            seat,
            place: PhantomData,
        }
    }

    /// Sees the history, which begins with what was seen and with what another has seen.
    pub fn learn(&self, prefix: &mut Prefix<E, L>, other: &mut Prefix<E, L>)
        /// With `other`: A prefix that learns of another begins with what both have seen.
        ensures own { IsFirstPart prefix.old prefix.new }
        ensures other { IsFirstPart other.old prefix.new }
        ensures kept { other.new ≡ other.old }
    {
        let seat = self.share(&mut other.seat);
        self.tell(&mut prefix.seat, seat);
        self.observe(&mut prefix.seat);
    }

    /// The whole history begins with what was seen.
    pub fn check(&self, appender: &mut Appender<E, L>, prefix: Prefix<E, L>)
        ensures kept { appender.new ≡ appender.old }
        /// What a prefix has seen begins the whole history.
        ensures prefix { IsFirstPart prefix appender.old }
    {
        let Prefix { seat, place: _ } = prefix;
        self.tell(&mut appender.seat, seat);
        self.observe(&mut appender.seat);
    }

    /// One token has the entries of two.
    pub fn join(&self, made: &mut OwnEntries<E, L>, other: OwnEntries<E, L>)
        ensures { made.new ≡ made.old ++ other }
    {
        let OwnEntries { seat, place: _ } = other;
        self.tell(&mut made.seat, seat);
    }

    /// The history has each entry of the token at its place. Where there are as many, the token has each of the
    /// history's entries once.
    pub fn audit(&self, appender: &mut Appender<E, L>, made: OwnEntries<E, L>)
        ensures kept { appender.new ≡ appender.old }
        /// With `whole`: Each entry of a token is in the history at its place; a token with as many entries as the
        /// history has all of them, each once.
        ensures stands { All (StandsIn appender.old) made }
        ensures whole { length made ≡ length appender.old
            → (h : ℕ × E → ℕ) → sum_by h made ≡ sum_by h (with_places 0 appender.old) }
    {
        let OwnEntries { seat, place: _ } = made;
        self.tell(&mut appender.seat, seat);
        self.observe(&mut appender.seat);
        // for the proof alone: what was joined is split off again, so that the token is as it was
        let _entries = self.take_entries(&mut appender.seat);
    }

    /// One more seat, which has seen what this one has.
    fn share(&self, seat: &mut Seat<E, View<E>>) -> Seat<E, View<E>>
        requires { seat.old.table_id ≡ L.history }
        ensures kept { (seat.new.table_id ≡ L.history) × (seat.new.me ≡ seat.old.me) }
        ensures seen { (result.table_id ≡ L.history) × (result.me ≡ (only_seen seat.old.me.0, [])) }
    {
        self.table.shared.split_seat::<ShareSeen>(seat)
    }

    /// One more seat, which has the entries that were made for this one.
    fn take_entries(&self, seat: &mut Seat<E, View<E>>) -> Seat<E, View<E>>
        requires { seat.old.table_id ≡ L.history }
        ensures left { (seat.new.table_id ≡ L.history) × (seat.new.me ≡ (without_mine seat.old.me.0, seat.old.me.1)) }
        ensures mine { (result.table_id ≡ L.history) × (result.me ≡ (only_mine seat.old.me.0, [])) }
    {
        self.table.shared.split_seat::<Entries>(seat)
    }

    /// The seat is told what another has seen, and gets its entries.
    fn tell(&self, seat: &mut Seat<E, View<E>>, other: Seat<E, View<E>>)
        requires here { seat.old.table_id ≡ L.history }
        requires other { (other.table_id ≡ L.history) × (other.me.1 ≡ []) }
        ensures here { seat.new.table_id ≡ L.history }
        ensures told { seat.new.me ≡ (told_by seat.old.me.0 other.me.0, seat.old.me.1) }
    {
        self.table.shared.join_seat::<Tell>(seat, other);
    }

    /// The seat sees the history as it is.
    fn observe(&self, seat: &mut Seat<E, View<E>>)
        requires { seat.old.table_id ≡ L.history }
        ensures here { seat.new.table_id ≡ L.history }
        ensures saw { (log : List E) × Sees seat.old.me.0 log × (seat.new.me ≡ (saw log seat.old.me.0, seat.old.me.1)) }
    {
        self.table.shared.load::<Observe>(seat, 0);
    }
}
