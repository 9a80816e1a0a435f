use jb_deck::CheckedRun;

/// What a round of a checkpointer at a level came to.
#[derive(Clone, Copy, Debug, PartialEq, Eq)]
pub enum CheckpointRound {
    /// Fewer blocks of the log than the level were in use: this many. Nothing was written.
    Low(u32),
    /// The oldest committed groups are home.
    Home(CheckedRun),
}
