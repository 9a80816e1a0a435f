use crate::queue_state::Drained;

/// Why a committer or a checkpointer has ended.
#[derive(Clone, Copy, Debug, PartialEq, Eq)]
pub enum Ended {
    /// A desk was over when its book was looked at: shut, with all that stopped done. It does not say which desk.
    Shut(Drained),
    /// The journal has failed.
    Aborted,
    /// There was no memory for a batch.
    Memory,
    /// The journal does not take a batch.
    Refused,
}

impl Ended {
    ghost use Rattle.std.specs.Prelude.{◌≡◌};
    ghost use Rattle.jb_desk.specs.Ends.{is_shut};

    /// Whether the desk was over.
    pub fn is_shut(&self) -> bool
        ensures { result ≡ is_shut self.now }
    {
        matches!(self, Ended::Shut(_))
    }
}
