//! Those that wait until a handle is committed.

use std::sync::{Condvar, Mutex, Wait};

/// Those that wait until a handle is committed, apart from those that wait for something else: they are woken where
/// theirs is settled, and not each time that one stops. One batch at a time is out, and the handles that wait are of
/// the next one; so those of two batches are awaited at a time, and what is awaited of one is apart from the other.
#[derive(Drop)]
pub(crate) struct Waits {
    waiting: Mutex<WaitCount>,
    /// a batch of even number is settled, or none will be any more
    even: Condvar,
    /// a batch of odd number is
    odd: Condvar,
}

/// How many wait.
#[derive(Drop)]
struct WaitCount {
    now: u64,
    /// how many did when a batch was last settled
    woken: u64,
}

impl Waits {
    /// Nobody waits.
    pub(crate) fn new() -> Waits {
        Waits {
            waiting: Mutex::new(WaitCount { now: 0, woken: 0 }),
            even: Condvar::new(),
            odd: Condvar::new(),
        }
    }

    /// What those wait on whose handles are in a batch of odd number, or of even number.
    pub(crate) fn settled(&self, is_odd: bool) -> &Condvar {
        if is_odd { &self.odd } else { &self.even }
    }

    /// One more waits.
    pub(crate) fn come<R: Wait>(&self, rt: &R) {
        let mut waiting = self.waiting.lock(rt);
        waiting.now = waiting.now.saturating_add(1);
    }

    /// One waits no more.
    pub(crate) fn go<R: Wait>(&self, rt: &R) {
        let mut waiting = self.waiting.lock(rt);
        waiting.now = waiting.now.saturating_sub(1);
    }

    /// The batch of odd number, or that of even number, is settled: wakes those that wait for its handles.
    pub(crate) fn wake<R: Wait>(&self, rt: &R, is_odd: bool) {
        let mut waiting = self.waiting.lock(rt);
        waiting.woken = waiting.now;
        drop(waiting);
        self.settled(is_odd).notify_all();
    }

    /// The journal has failed: wakes all that wait.
    pub(crate) fn wake_all(&self) {
        self.even.notify_all();
        self.odd.notify_all();
    }

    /// How many waited when a batch was last settled, for its handles or for later ones.
    pub(crate) fn woken<R: Wait>(&self, rt: &R) -> u64 {
        self.waiting.lock(rt).woken
    }
}
