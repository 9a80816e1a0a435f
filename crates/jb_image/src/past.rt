//! What clauses know of the calls of two disks.
ghost use Rattle.std.specs.Prelude.{◌≡◌, ◌∷◌};

use std::snapshot::Snapshot;

/// The states that two disks were in before each call of one of them, for clauses to read. It keeps none of their
/// bytes.
#[derive(Drop)]
#[cycle(past)]
pub(crate) enum Past<A, B> {
    /// No call was made.
    Start,
    /// The two states before the last call, and what was before.
    Call(Snapshot<A>, Snapshot<B>, Snapshot<Past<A, B>>),
}

impl<A, B> Past<A, B> {
    ghost use Rattle.jb_image.specs.Past.{states};

    /// Notes the states before a call.
    pub(crate) fn note(&mut self, front: &A, back: &B)
        ensures { states self.new ≡ (front.now, back.now) ∷ states self.old }
    {
        let before = Snapshot::of(&*self);
        *self = Past::Call(Snapshot::of(front), Snapshot::of(back), before);
    }
}
