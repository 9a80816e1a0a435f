//! The system's clock.
ghost use Rattle.std.specs.Prelude.{◌<◌};

use jb_block::Stamp;
use jb_disk::Clock;
use std::time;

/// The clock of the system, whose time of day is written into each commit block (`h_commit_sec`, `h_commit_nsec`).
/// Where it cannot be read, or is before 1970, the stamp is 0. That it is the time of day is tested.
#[derive(Clone, Copy)]
pub struct SystemClock<'a, R> {
    rt: &'a R,
}

impl<'a, R: time::Clock> SystemClock<'a, R> {
    /// The clock of this runtime.
    pub fn new(rt: &'a R) -> SystemClock<'a, R> {
        SystemClock { rt }
    }
}

impl<'a, R: time::Clock> Clock for SystemClock<'a, R> {
    ghost tells = { λ _ stamp. stamp.nsec < 1000000000 };

    fn now(&self) -> Stamp {
        match self.rt.since_1970() {
            Ok(time) => Stamp {
                sec: time.as_secs(),
                nsec: time.subsec_nanos(),
            },
            Err(_) => Stamp { sec: 0, nsec: 0 },
        }
    }
}
