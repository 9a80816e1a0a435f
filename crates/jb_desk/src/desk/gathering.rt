//! A committer waits before a round for handles that are about to stop: for as long as it is told to (jbd2's commit
//! interval), or else a little while, by what the last round took (`j_min_batch_time`).

use crate::committer::Committer;
use crate::delay::Delay;
use crate::desk::Desk;
use jb_book::Origin;
use jb_disk::{Clock, Disk};
use std::sync::{CondvarTimeouts, Wait};
use std::time;
use std::time::{Duration, Instant};

/// How many times a committer waits before a round.
const TIMES: u32 = 8;

/// The part of a round's time that it waits each time: one of this many.
const PART: u32 = 32;

/// Where the last round took less, in microseconds, nothing is waited for: a thread is not woken much faster than in a
/// part of it.
const LEAST: u64 = 300;

/// How long a committer puts its rounds off, and what the last one took.
#[derive(Drop)]
pub(crate) struct Pace {
    delay: Delay,
    start: Option<Instant>,
    took: Duration,
}

impl Pace {
    /// There was no round.
    pub(crate) fn new(delay: Delay) -> Pace {
        Pace {
            delay,
            start: None,
            took: Duration::ZERO,
        }
    }

    /// A round begins.
    fn begin(&mut self, clock: &impl time::Clock) {
        self.start = Instant::now(clock).ok();
    }

    /// The round has committed a batch.
    pub(crate) fn end(&mut self, clock: &impl time::Clock) {
        self.took = match self.start {
            Some(start) => start.elapsed(clock).unwrap_or(Duration::ZERO),
            None => Duration::ZERO,
        };
    }

    /// How long it pays to wait for one handle more; nothing where it does not.
    fn patience(&self) -> Duration {
        if self.took < Duration::from_micros(LEAST) {
            return Duration::ZERO;
        }
        self.took.checked_div(PART).unwrap_or(Duration::ZERO)
    }
}

impl<D: Disk, C: Clock, H: Origin> Desk<D, C, H> {
    /// Begins a round, and waits before it where handles have stopped, unless the committer holds a batch, to which
    /// none can be added.
    pub(crate) fn gather<R: Wait + time::Clock>(
        &self,
        rt: &R,
        committer: &Committer<H>,
        pace: &mut Pace,
    ) {
        if committer.batch.is_none() {
            self.put_off(rt, pace);
        }
        pace.begin(rt)
    }

    /// Puts a round off by its delay; where there is none, for the threads that the last round has woken: they begin
    /// their next handles at about the same time, and one that stops too late for a round is committed a whole round
    /// later.
    fn put_off<R: Wait + time::Clock>(&self, rt: &R, pace: &Pace) {
        if !pace.delay.time.is_zero() {
            return self.await_handles(rt, pace.delay);
        }
        let patience = pace.patience();
        if !patience.is_zero() {
            self.await_stops(rt, patience);
        }
    }

    /// Waits until there is a batch to take, and then until this many handles have stopped, or for so long where fewer
    /// do. The lock is held between the two: else one that stops meanwhile would be taken at once. The time is asked
    /// before and after each sleep: where the clock cannot be read there is none.
    fn await_handles<R: Wait + time::Clock>(&self, rt: &R, delay: Delay) {
        let queue = self.queue.lock(rt);
        let mut queue = self
            .signals
            .stopped
            .wait_while(rt, queue, |queue| queue.rests());
        queue.want_handles(delay.handles);
        let _gathered = self
            .signals
            .gathered
            .wait_timeout_while(rt, queue, delay.time, |queue| queue.is_put_off());
    }

    /// Waits so long, a few times, until as many handles have stopped as were waited for when the last round ended, or
    /// none has stopped meanwhile.
    fn await_stops<R: Wait + time::Clock>(&self, rt: &R, patience: Duration) {
        let wanted = self.waits.woken(rt);
        let mut queue = self.queue.lock(rt);
        queue.want_handles(wanted);
        let mut queued = queue.queued();
        for _ in 0..TIMES {
            let before = queued;
            if !queue.is_put_off() {
                break;
            }
            let (back, _) = self
                .signals
                .gathered
                .wait_timeout_while(rt, queue, patience, |queue| queue.is_put_off());
            queue = back;
            queued = queue.queued();
            if queued == before {
                break;
            }
        }
    }
}
