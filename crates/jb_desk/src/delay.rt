//! How long a round is put off.
ghost use Rattle.std.specs.Prelude.{◌≡◌};
ghost use Rattle.std.specs.Duration.{as_nanos};

use std::time::Duration;

/// How long a committer puts its rounds off, so that each commits more handles (jbd2's commit interval). Once a handle
/// waits to be committed and the last round has ended, the next one begins when this many handles wait, or when the
/// time has gone by. It begins at once where a handle waits for room in the log
/// ([`Desk::begin_waiting`](crate::Desk::begin_waiting)), as it may wait for those of this very round; where the desk
/// is shut or the journal has failed; and where the clock cannot be read.
#[derive(Clone, Copy, Debug, PartialEq, Eq)]
pub struct Delay {
    /// How long a round is put off at most; with 0 it is not.
    pub time: Duration,
    /// How many handles that wait end the delay; with 0 or 1 there is none.
    pub handles: u64,
}

impl Delay {
    /// No round is put off.
    pub fn none() -> Delay
        ensures { (as_nanos result.time ≡ 0) × (result.handles ≡ 0) }
    {
        Delay {
            time: Duration::ZERO,
            handles: 0,
        }
    }
}
