//! Where a command is that peeks at home blocks, one after the other.

use crate::progress::advance::Advance;

/// How many home blocks were peeked at. Each peek begins with the superblock, and so ends the one before.
#[derive(Clone, Copy)]
pub(crate) struct PeekedHomes {
    /// Whether the first has begun.
    begun: bool,
    /// How many blocks are done.
    pub blocks: Advance,
}

impl PeekedHomes {
    /// Before the first of so many.
    pub(crate) fn new(blocks: u64) -> PeekedHomes {
        PeekedHomes {
            begun: false,
            blocks: Advance::new(blocks),
        }
    }

    /// The block at a place is read.
    pub(crate) fn meet(&mut self, place: u64) {
        if place != 0 {
            return;
        }
        if self.begun {
            self.blocks.add(1)
        }
        self.begun = true
    }
}
