//! Why a handle is not stopped, a home not read, and a journal not run.
use crate::remedy::{Remedy, ToWorker};
use jb_deck::OpenFault;
use jb_desk::BeginFault;
use jb_disk::Failure;
use jb_recover::PeekFault;
use std::fmt;
use thiserror::Error;

/// Why a handle of a client did not stop. It is dropped with all of its changes.
#[derive(Clone, Copy, Debug, PartialEq, Eq, Error)]
#[error_bound(E: fmt::Display)]
pub enum HandleFault<E> {
    /// It was not begun, for this.
    #[error("{}", ToWorker {has_failed: *.0 == BeginFault::Aborted, fault: .0})]
    Begin(BeginFault),
    /// What changes it gave this answer.
    #[error(transparent)]
    Refused(E),
    /// The journal has failed: the worker ends, and so does the program. What the run leaves says why
    /// ([`Ran::durable`](crate::Ran::durable)), and what to do before the program is started anew.
    #[error("the journal has failed; the end of the run says why, and what to do")]
    Aborted,
    /// The handle has other words than the one that was begun may have: it was exchanged for another one.
    #[error("the handle is not the one that was begun; change that one in its place")]
    NotOpen,
    /// There was no memory for it in the queue. It can be tried again.
    #[error("out of memory; change again")]
    Memory,
}

/// Why a journal was not run, or has no answer.
#[derive(Clone, Copy, Debug, PartialEq, Eq, Error)]
pub enum RunFault {
    /// The journal was not opened, for this.
    #[error(transparent)]
    Open(OpenFault),
    /// There was no memory for the desk and for what the threads leave: no worker was called, and nothing was done on
    /// the disk but to open the journal. It is run again once there is memory.
    #[error("out of memory; no worker was called")]
    Memory,
    /// The system makes no thread more, so that each worker had one of its own: no worker was called.
    #[error("the system makes no thread more; run with fewer workers")]
    NoThread,
    /// The desk's sums do not agree, a worker has not answered, or the journal has another shape at the end, which
    /// cannot happen. What was committed is kept.
    #[error("the journal's accounts do not agree")]
    Accounts,
}

/// Why what a run leaves is not durable. Where the journal has failed, `failure` is what its disk tells of the call
/// that failed: the program is to end, that is to be seen to, and the program started anew recovers the journal.
#[derive(Clone, Copy, Debug, PartialEq, Eq, Error)]
pub enum NotDurable {
    /// Handles that stopped were not all settled: the others may be lost.
    #[error("only {settled} of {handles} handles are settled; {remedy}", remedy = Remedy(*.failure))]
    NotSettled {
        /// How many handles stopped.
        handles: u64,
        /// How many of them, the first by their tickets, are settled.
        settled: u64,
        /// Why the journal has failed, where it has and its disk tells.
        failure: Option<Failure>,
    },
    /// All are settled, but the journal has failed since, or not all of them are home though that was asked for: the
    /// homes on the disk are not to be read before it is recovered.
    #[error("not all handles are home; {remedy}", remedy = Remedy(*.failure))]
    NotHome {
        /// Why the journal has failed, where it has and its disk tells.
        failure: Option<Failure>,
    },
}

/// Why a home block was not read from a journal that is not open.
#[derive(Clone, Copy, Debug, PartialEq, Eq, Error)]
pub enum HomeFault {
    /// The buffer has not the length of one block.
    #[error("the buffer has not the length of one block")]
    Length,
    /// It was not read, for this.
    #[error(transparent)]
    Peek(PeekFault),
}
