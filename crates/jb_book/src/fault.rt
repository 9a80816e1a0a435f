use thiserror::Error;

/// Why a book begins no handle. It is as it was. Where several hold, the first is answered.
#[derive(Clone, Copy, Debug, PartialEq, Eq, Error)]
pub enum BeginFault {
    /// The book has failed.
    #[error("the journal has failed; see to its disk, then start the program anew and recover it")]
    Aborted,
    /// The book is shut.
    #[error("the desk is shut")]
    Closed,
    /// The book lists an open handle of the seat.
    #[error("the seat has an open handle")]
    Busy,
    /// More credits than a handle may have, which are these.
    #[error("a handle may have at most {0} credits")]
    TooManyCredits(u32),
    /// So many credits are reserved that there is no room for more; or no ticket is left, or no credit
    /// of those that may be granted in all.
    #[error("no room beside {0} reserved credits; wait until handles are committed")]
    Full(u64),
    /// There was no memory for the seat.
    #[error("out of memory")]
    Memory,
}

/// Why a book does not queue a handle, which is given back. The book is as it was.
#[derive(Clone, Copy, Debug, PartialEq, Eq, Error)]
pub enum EnqueueFault {
    /// The book has failed.
    #[error("the journal has failed; see to its disk, then start the program anew and recover it")]
    Aborted,
    /// The book lists no open handle of the seat, or the words are not within its credits or do not
    /// fit the shape.
    #[error("the seat has no open handle, or its words are not within its credits")]
    NotOpen,
    /// There was no memory for the handle in the queue.
    #[error("out of memory; stop again")]
    Memory,
}

/// The groups do not go on where the settled ones end, or are not of the batch that is out.
#[derive(Clone, Copy, Debug, PartialEq, Eq, Error)]
#[error("the groups are not those of the batch that is out; settle what the journal has committed")]
pub struct WrongBatch;
