//! The gate at which workers wait until each thread of a run is there.
//!
//! Where the system makes no thread, a join runs what was for it after the rest. A worker that waits for a commit would
//! then wait for ever, since the committer has not begun.

use std::sync::{Condvar, CondvarTimeouts, Mutex, Wait};
use std::time;
use std::time::{Duration, Instant};

/// How long the threads of a run are waited for, in seconds.
const PATIENCE: u64 = 10;

/// A gate that opens once this many threads have come to it, unless it was given up before.
#[derive(Drop)]
pub(crate) struct Gate {
    came: Mutex<GateArrivals>,
    moved: Condvar,
}

/// Who has come to a gate.
#[derive(Drop)]
struct GateArrivals {
    /// how many threads have yet to come
    missing: usize,
    /// whether it was waited for in vain
    given_up: bool,
}

impl Gate {
    /// A gate for this many threads.
    pub(crate) fn new(threads: usize) -> Gate {
        Gate {
            came: Mutex::new(GateArrivals {
                missing: threads,
                given_up: false,
            }),
            moved: Condvar::new(),
        }
    }

    /// A thread has come, and goes on.
    pub(crate) fn pass<R: Wait>(&self, rt: &R) {
        let mut came = self.came.lock(rt);
        came.missing = came.missing.saturating_sub(1);
        self.moved.notify_all();
    }

    /// A thread has come, and waits until all have; false where they have not within ten seconds, or another thread has
    /// waited so long in vain.
    pub(crate) fn wait<R: Wait + time::Clock>(&self, rt: &R) -> bool {
        self.pass(rt);
        let start = Instant::now(rt).ok();
        for _ in rt.forever() {
            let left = left_since(rt, start);
            let mut came = self.came.lock(rt);
            if let Some(all) = came.have_all(left) {
                self.moved.notify_all();
                return all;
            }
            self.moved.wait_timeout(rt, came, left);
        }
        unreachable!()
    }

    /// Whether it was given up.
    pub(crate) fn is_given_up<R: Wait>(&self, rt: &R) -> bool {
        self.came.lock(rt).given_up
    }
}

impl GateArrivals {
    /// Whether all have come; `None` while that is waited for. Where no time is left they are given up.
    fn have_all(&mut self, left: Duration) -> Option<bool> {
        if self.missing > 0 && left.is_zero() {
            self.given_up = true;
        }
        (self.given_up || self.missing == 0).then_some(!self.given_up)
    }
}

/// How long to wait yet, where it was waited since then; not at all where the clock cannot be read.
fn left_since<R: time::Clock>(rt: &R, start: Option<Instant>) -> Duration {
    let gone = match start {
        Some(start) => start.elapsed(rt).unwrap_or(Duration::MAX),
        None => Duration::MAX,
    };
    Duration::from_secs(PATIENCE).saturating_sub(gone)
}
