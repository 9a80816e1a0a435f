//! What threads have of a history. None of these has bytes.
ghost use Rattle.std.specs.Prelude.{◌≡◌, ℕ, List, [], true};

use crate::place::Place;
use crate::view::View;
use atomic_table::Seat;
use std::marker::{Model, PhantomData};

/// The right to add entries. To a contract it is the whole history.
#[derive(Drop)]
pub struct Appender<E, L: Place> {
    pub(crate) seat: Seat<E, View<E>>,
    pub(crate) place: PhantomData<L>,
}

impl<E, L: Place> Model for Appender<E, L> {
    ghost Value = { List E };

    ghost view = { λ s. s.seat.me.0.seen };

    ghost invariant = { λ s. (s.seat.table_id ≡ L.history) × (s.seat.me.1 ≡ [])
        × (s.seat.me.0.keeps ≡ true) × (s.seat.me.0.mine ≡ []) };
}

/// A prefix of the history, which was seen.
#[derive(Drop)]
pub struct Prefix<E, L: Place> {
    pub(crate) seat: Seat<E, View<E>>,
    pub(crate) place: PhantomData<L>,
}

impl<E, L: Place> Model for Prefix<E, L> {
    ghost Value = { List E };

    ghost view = { λ s. s.seat.me.0.seen };

    ghost invariant = { λ s. (s.seat.table_id ≡ L.history) × (s.seat.me.1 ≡ []) × (s.seat.me.0.mine ≡ []) };
}

/// The entries that were made for it, each with its place in the history.
#[derive(Drop)]
pub struct OwnEntries<E, L: Place> {
    pub(crate) seat: Seat<E, View<E>>,
    pub(crate) place: PhantomData<L>,
}

impl<E, L: Place> Model for OwnEntries<E, L> {
    ghost Value = { List (ℕ × E) };

    ghost view = { λ s. s.seat.me.0.mine };

    ghost invariant = { λ s. (s.seat.table_id ≡ L.history) × (s.seat.me.1 ≡ []) × (s.seat.me.0.seen ≡ []) };
}
