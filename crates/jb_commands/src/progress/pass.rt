//! Where a command is that goes over the log of a journal, once or several times.

use crate::progress::advance::Advance;

/// How often a command goes over the log of a journal.
#[derive(Clone, Copy)]
pub(crate) struct PassCounts {
    /// So many times, or at most so many.
    pub count: u64,
    /// Whether it may be fewer.
    fewer: bool,
}

impl PassCounts {
    /// Of a recovery, or one that is only foreseen: a pass that finds the log's end, and one for the homes. Where the
    /// journal may have checksums, one before them, and one for the data of copies: none of these if it has none. One
    /// that writes, and whose journal is within its file system, is foreseen first, without the data. The rare pass
    /// that looks for a copy without a home is not among them.
    pub(crate) fn of_recovery(dry_run: bool, within: bool, checksums: bool) -> PassCounts {
        let count = match (within && !dry_run, checksums) {
            (false, false) => 2,
            (false, true) => 4,
            (true, false) => 4,
            (true, true) => 7,
        };
        PassCounts {
            count,
            fewer: checksums,
        }
    }

    /// What is said before the number.
    pub(crate) fn words(self) -> &'static str {
        if self.fewer { " of at most " } else { " of " }
    }
}

/// A pass over a log. It is known by the places of the blocks that are read and written: each pass begins at the same
/// one, the log's tail, and goes on to where the log ends.
#[derive(Clone, Copy)]
pub(crate) struct Pass {
    /// How many blocks the journal has after its superblock.
    ring: u64,
    /// How often the log is gone over.
    pub passes: PassCounts,
    /// Which pass it is; 0 before the first.
    pub number: u64,
    /// The place where each begins.
    tail: u64,
    /// How many blocks of the log it has come over: of the first pass of all that there are, of a later one of those of
    /// the one before.
    pub blocks: Advance,
}

impl Pass {
    /// Before the first pass over the log of a journal of this many blocks.
    pub(crate) fn new(journal: u64, passes: PassCounts) -> Pass {
        let ring = journal.saturating_sub(1);
        Pass {
            ring,
            passes,
            number: 0,
            tail: 0,
            blocks: Advance::new(ring),
        }
    }

    /// The block at a place is read or written. The superblock and the home blocks are none of the log.
    pub(crate) fn meet(&mut self, place: u64) {
        if place == 0 || place > self.ring {
            return;
        }
        if self.number == 0 {
            self.tail = place;
            self.number = 1;
        } else if place == self.tail {
            self.blocks = Advance::new(self.blocks.at);
            self.number = self.number.saturating_add(1);
        } else {
            self.blocks.at = self.behind(place);
        }
        self.passes.count = self.passes.count.max(self.number)
    }

    /// How many blocks of the ring are before a place, from the tail on.
    fn behind(self, place: u64) -> u64 {
        if place > self.tail {
            place - self.tail
        } else {
            place.saturating_add(self.ring).saturating_sub(self.tail)
        }
    }
}
