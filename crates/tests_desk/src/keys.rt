//! What the handles of a load do: each has a key, which gives its changes and the blocks that it writes.
use jb_block::{put32, put64};

/// How many home blocks there are.
pub const HOMES: usize = 64;

/// The most changes of a handle.
pub const CHANGES: usize = 4;

/// The number that a block of the log begins with.
const MAGIC: u32 = 0xC03B_3998;

/// Numbers that follow from a seed (the generator SplitMix64).
#[derive(Clone, Copy)]
pub struct Draws {
    state: u64,
}

impl Draws {
    /// The numbers that follow from this seed; the same seed gives the same numbers.
    pub fn of(seed: u64) -> Draws {
        Draws { state: seed }
    }

    /// The next number, which may be a key.
    pub fn key(&mut self) -> u64 {
        self.state = self.state.wrapping_add(0x9E37_79B9_7F4A_7C15);
        let mixed = (self.state ^ (self.state >> 30)).wrapping_mul(0xBF58_476D_1CE4_E5B9);
        let mixed = (mixed ^ (mixed >> 27)).wrapping_mul(0x94D0_49BB_1331_11EB);
        mixed ^ (mixed >> 31)
    }

    /// A number below a limit, or 0.
    pub fn below(&mut self, limit: u32) -> u32 {
        let number = u32::try_from(self.key() >> 33).unwrap_or(0);
        if limit == 0 { 0 } else { number % limit }
    }
}

/// What a handle does with a home.
#[derive(Clone, Copy)]
pub struct Change {
    pub home: usize,
    pub is_revoke: bool,
}

/// The changes of the handle with this key, in their order. A few homes are changed far more often than the others.
pub fn changes_of(key: u64) -> [Option<Change>; CHANGES] {
    let mut draws = Draws::of(key);
    let count = draws.below(4).saturating_add(1);
    let mut changes = [None; CHANGES];
    for (i, change) in changes.iter_mut().enumerate() {
        let homes = if draws.below(3) == 0 { 8 } else { HOMES as u32 };
        let home = draws.below(homes) as usize;
        let is_revoke = draws.below(4) == 0;
        if i < count as usize {
            *change = Some(Change { home, is_revoke });
        }
    }
    changes
}

/// The block that the handle with this key writes to a home. One key in eight makes it begin as a block of the log
/// does.
pub fn block_of(key: u64, home: usize) -> [u8; 1024] {
    let fill = u8::try_from(key % 251).unwrap_or(0);
    let mut block = [fill; 1024];
    let front = if key % 8 == 0 { MAGIC } else { 0 };
    put32(&mut block, 0, front);
    put64(&mut block, 8, key);
    put64(&mut block, 16, home as u64);
    put64(&mut block, 1016, key);
    block
}
