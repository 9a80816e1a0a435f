/// How far the handles of a journal have come, as three counts of tickets. Where they are read from a
/// board they are in order: what is settled was taken, and what is taken was stopped.
#[derive(Clone, Copy, Debug, PartialEq, Eq)]
pub struct Front {
    /// How many tickets are settled: the groups that hold them are committed (`j_commit_sequence`, but of handles).
    pub settled: u64,
    /// How many tickets a committer has taken from the queue.
    pub taken: u64,
    /// How many handles have stopped, and so have a ticket.
    pub stopped: u64,
}
