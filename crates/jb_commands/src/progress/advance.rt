//! How far something has come, and how long it takes to its end.

/// So many of so many.
#[derive(Clone, Copy)]
pub(crate) struct Advance {
    /// How many are done.
    pub at: u64,
    /// How many there are at most.
    pub of: u64,
    /// When it was first seen, in milliseconds; `None` before that.
    since: Option<u64>,
}

impl Advance {
    /// None of so many.
    pub(crate) fn new(of: u64) -> Advance {
        Advance {
            at: 0,
            of,
            since: None,
        }
    }

    /// So many more are done.
    pub(crate) fn add(&mut self, more: u64) {
        self.at = self.at.saturating_add(more)
    }

    /// It is this time, in milliseconds.
    pub(crate) fn see(&mut self, now: u64) {
        if self.since.is_none() {
            self.since = Some(now)
        }
    }

    /// How much is done, in hundredths.
    pub(crate) fn percent(self) -> u64 {
        let hundredths = self.at.saturating_mul(100).checked_div(self.of);
        hundredths.unwrap_or(100).min(100)
    }

    /// How many seconds are left, if it goes on as it has since it was first seen.
    pub(crate) fn seconds_left(self, now: u64) -> u64 {
        let gone = now.saturating_sub(self.since.unwrap_or(now));
        let left = self.of.saturating_sub(self.at);
        gone.saturating_mul(left).checked_div(self.at).unwrap_or(0) / 1000
    }
}
