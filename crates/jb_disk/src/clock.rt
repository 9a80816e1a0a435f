//! Where the stamps of commits come from.
ghost use Rattle.std.specs.Prelude.{◌≡◌};
ghost use Rattle.jb_block.specs.declared.stamp.Stamp.{Stamp as Told};

use jb_block::Stamp;

/// A clock that gives the stamp of a commit.
pub trait Clock {
    /// The stamps that it may give.
    ghost tells: { Self → Told → Type 0 };

    /// The moment, as it is written in a commit block.
    fn now(&self) -> Stamp
        ensures { tells self.now result };
}

/// A clock that always gives the same stamp, for tests and for images that have to be the same each time.
#[derive(Clone, Copy, Debug, PartialEq, Eq)]
pub struct FixedClock {
    /// The stamp that it gives.
    pub stamp: Stamp,
}

impl Clock for FixedClock {
    ghost tells = { λ clock stamp. stamp ≡ clock.stamp };

    fn now(&self) -> Stamp {
        self.stamp
    }
}
