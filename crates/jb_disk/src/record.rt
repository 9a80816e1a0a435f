//! The calls of a file, kept for clauses alone.
ghost use Rattle.std.specs.Prelude.{◌≡◌, List, [], ◌∷◌};
ghost use Rattle.std.specs.Borrow.{ftrue};
ghost use Rattle.jb_disk.specs.Events.{SystemCall, event_of};

use std::marker::Model;

/// Calls with their answers, the newest first. They take no memory and no code computes them, so what is noted is
/// what the caller says: each call of `note` has to be read beside the call of the system that it stands for.
#[derive(Drop)]
pub(crate) struct Record {
    pub(crate) ghost events: { List SystemCall },
}

impl Model for Record {
    ghost also_owns = { λ _. ftrue };
}

// It owns nothing, so it may go to another thread.
unsafe impl Send for Record {}

impl Record {
    /// A record of no calls.
    pub(crate) fn new() -> Record
        ensures { result.events ≡ [] }
    {
        Record {}
    }

    /// Notes the call that these numbers and bytes say: which call, its offset or length, and 1 where it succeeded.
    pub(crate) fn note(&mut self, _numbers: &[u64], _bytes: &[u8])
        ensures { self.new.events ≡ event_of _numbers.now _bytes.now ∷ self.old.events }
    {}
}
