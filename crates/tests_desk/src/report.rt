//! What a thread reports of a load.
use crate::checks::{check, fail};
use crate::homes::Stop;
use jb_desk::{BeginFault, EnqueueFault, WaitFault};
use std::alloc::Global;
use std::process::Abort;
use std::thread;
use std::time::{Clock, Duration};

/// What a thread has done at a desk.
#[derive(Drop)]
pub struct Report {
    /// the handles that it stopped
    pub stops: Vec<Stop>,
    /// the home blocks that these touched, added up
    pub touched: u64,
    /// tickets that it waited for, and the numbers that were answered
    pub waited: Vec<(u64, u32)>,
    /// the journal has failed
    pub is_aborted: bool,
}

impl Report {
    /// Nothing yet.
    pub fn new(alloc: Global) -> Report {
        Report {
            stops: Vec::new(alloc),
            touched: 0,
            waited: Vec::new(alloc),
            is_aborted: false,
        }
    }

    /// Notes what a begin was refused for. Where the journal is full, or where there is no memory, it waits for a
    /// tenth of a millisecond.
    pub fn note_refusal<R: Abort + Clock>(&mut self, rt: &R, fault: BeginFault) {
        match fault {
            BeginFault::Full(_) | BeginFault::Memory => {
                thread::sleep(rt, Duration::from_micros(100))
            }
            BeginFault::Aborted => self.is_aborted = true,
            _ => fail(rt, "why a handle is not begun"),
        }
    }

    /// Notes what a stop answered.
    pub fn note_stop(
        &mut self,
        rt: &impl Abort,
        key: u64,
        touched: u32,
        answer: Result<u64, EnqueueFault>,
    ) {
        match answer {
            Ok(ticket) => {
                self.touched = self.touched.saturating_add(u64::from(touched));
                push(rt, &mut self.stops, Stop { ticket, key });
            }
            Err(EnqueueFault::Aborted) => self.is_aborted = true,
            Err(_) => fail(rt, "why a handle is not stopped"),
        }
    }

    /// Notes what a wait answered.
    pub fn note_wait(&mut self, rt: &impl Abort, ticket: u64, answer: Result<u32, WaitFault>) {
        match answer {
            Ok(number) => push(rt, &mut self.waited, (ticket, number)),
            Err(WaitFault::Aborted) => self.is_aborted = true,
            Err(WaitFault::Taken | WaitFault::Unknown) => fail(rt, "why a ticket is not settled"),
        }
    }
}

/// Puts an item at the end of a list. Where that is out of memory it tries once more.
fn push<T: Copy>(rt: &impl Abort, items: &mut Vec<T>, item: T) {
    let is_pushed = items.push(item).is_ok() || items.push(item).is_ok();
    check(rt, is_pushed, "memory");
}
