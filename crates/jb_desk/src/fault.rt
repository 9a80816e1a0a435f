use crate::seat::Seat;
use jb_book::Origin;
use jb_handle::Handle;
use std::fmt;
use thiserror::Error;

/// A desk that is shut gives no seats, nor does one that gave 2^61.
#[derive(Clone, Copy, Debug, PartialEq, Eq, Error)]
pub enum SeatFault {
    /// The desk gives no more seats.
    #[error("the desk is shut")]
    Closed,
}

/// Why a desk does not stop a handle.
#[must_use]
pub enum StopFault<H: Origin> {
    /// The journal has failed. The handle is dropped with all of its changes; here is its seat.
    Aborted(Seat<H>),
    /// The book lists no open handle of the seat, or the words are not within its credits or do not
    /// fit the shape. Here is the handle.
    NotOpen(Handle<Seat<H>>),
    /// There was no memory for the handle in the queue. Here it is.
    Memory(Handle<Seat<H>>),
}

impl<H: Origin> fmt::Display for StopFault<H> {
    fn fmt<W: fmt::Write>(&self, f: &mut fmt::Formatter<W>) -> fmt::Result {
        match self {
            StopFault::Aborted(_) => write!(
                f,
                "the journal has failed; see to its disk, then start the program anew and recover it"
            ),
            StopFault::NotOpen(_) => write!(
                f,
                "the seat has no such handle open; stop the one that was begun"
            ),
            StopFault::Memory(_) => write!(f, "out of memory; stop again, or abandon the handle"),
        }
    }
}

/// Why a desk names no group for a ticket.
#[derive(Clone, Copy, Debug, PartialEq, Eq, Error)]
pub enum WaitFault {
    /// The journal has failed, and the ticket is not settled.
    #[error("the journal failed with the handle not settled; see to its disk, then start anew and recover it")]
    Aborted,
    /// The ticket is settled, and the entry of its group was taken from the trail.
    #[error("the handle is settled; its transaction is among the entries that were taken from the trail")]
    Taken,
    /// Nobody has the ticket.
    #[error("no handle has the ticket")]
    Unknown,
}
