//! What may go wrong here.
use jb_journal::JournalFault;
use std::alloc::AllocError;
use std::io;
use thiserror::Error;

/// Why not all requests are durable.
#[derive(Debug, Drop, Error)]
pub enum Failed {
    /// No worker serves the queue any more.
    #[error("no worker serves the queue any more")]
    Unserved,
    /// The system makes no thread more.
    #[error("the system makes no thread more")]
    NoThread,
    /// Nothing can be written to standard output.
    #[error(transparent)]
    Io(#[from] io::Error),
    /// A call of the journal did not do what it was called for.
    #[error(transparent)]
    Journal(#[from] JournalFault),
    /// There was no memory.
    #[error("out of memory")]
    Memory(#[from(alloc)] AllocError),
}
