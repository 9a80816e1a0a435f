ghost use Rattle.std.specs.Prelude.{◌≤◌};

use jb_block::{BlockSize, Width};

/// What the handles of a journal have to fit, of its superblock (`journal_superblock_t`) and its disk.
#[derive(Clone, Copy, Debug, PartialEq, Eq)]
pub struct Shape {
    /// The size of a block (`s_blocksize`).
    pub bs: BlockSize,
    /// How many home blocks there are; they are numbered from 0.
    pub homes: u64,
    /// How many log blocks one transaction may take, from 3 to 2147483646 (`s_max_transaction`, or a
    /// quarter of the log; `j_max_transaction_buffers`).
    pub limit: u32,
    /// How wide block numbers are in the log.
    pub width: Width,
    ghost least: { 3 ≤ limit },
    ghost most: { limit ≤ 2147483646 },
}
