//! What the handles took.
use jb_journal::Memory;
use std::alloc::Global;
use std::time::Duration;

/// What the handles of one worker took, in microseconds.
#[derive(Drop)]
pub struct Part {
    /// When it began, and when its last handle was durable.
    begun: u64,
    ended: u64,
    /// How long each handle took until it was durable.
    waits: Vec<u64>,
}

impl Part {
    /// A worker that begins at this time.
    pub fn new(alloc: Global, begun: u64) -> Part {
        Part {
            begun,
            ended: begun,
            waits: Vec::new(alloc),
        }
    }

    /// A handle was begun and is durable at these times.
    ///
    /// # Errors
    /// Where there is no memory.
    pub fn add(&mut self, begun: u64, ended: u64) -> Result<(), Memory> {
        self.ended = ended;
        self.waits.push(ended.saturating_sub(begun))?;
        Ok(())
    }
}

/// What the handles of all workers took.
#[derive(Drop)]
pub struct Times {
    begun: u64,
    ended: u64,
    waits: Vec<u64>,
    groups: usize,
}

/// How many microseconds it was from the first begin to the last end, how many half of the handles took at most, and
/// how many 99 of 100.
pub struct Waited {
    pub whole: u64,
    pub median: u64,
    pub most: u64,
}

impl Times {
    /// Of no worker yet, where this many transactions were committed.
    pub fn new(alloc: Global, groups: usize) -> Times {
        Times {
            begun: u64::MAX,
            ended: 0,
            waits: Vec::new(alloc),
            groups,
        }
    }

    /// Adds what the handles of one worker took.
    ///
    /// # Errors
    /// Where there is no memory.
    pub fn add(&mut self, part: Part) -> Result<(), Memory> {
        self.begun = self.begun.min(part.begun);
        self.ended = self.ended.max(part.ended);
        self.waits.extend_from_slice(&part.waits)?;
        Ok(())
    }

    /// How many handles there were.
    pub fn handles(&self) -> usize {
        self.waits.len()
    }

    /// How many transactions they were committed in.
    pub fn groups(&self) -> usize {
        self.groups
    }

    /// What they took.
    pub fn waited(self) -> Waited {
        let Times {
            begun,
            ended,
            mut waits,
            ..
        } = self;
        waits.sort_unstable();
        let last = waits.len().saturating_sub(waits.len() / 100 + 1);
        Waited {
            whole: ended.saturating_sub(begun),
            median: at(&waits, waits.len() / 2),
            most: at(&waits, last),
        }
    }
}

/// The one at this place, and 0 where there is none.
fn at(waits: &[u64], place: usize) -> u64 {
    waits.get(place).copied().unwrap_or(0)
}

/// A time in microseconds.
pub fn micros(time: Duration) -> u64 {
    time.as_secs()
        .saturating_mul(1_000_000)
        .saturating_add(u64::from(time.subsec_micros()))
}
