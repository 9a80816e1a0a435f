use crate::payload::Payload;

/// A change of one home block by a handle (of a metadata buffer, in the kernel).
#[derive(Debug, Drop)]
pub enum Op {
    /// The home block gets these bytes (`jbd2_journal_dirty_metadata`). It cancels a revoke of
    /// the block in the same handle.
    Write(u64, Payload),
    /// The home block is freed (`jbd2_journal_revoke`). It drops a copy of the block in the same handle.
    Revoke(u64),
}
