ghost use Rattle.std.specs.Prelude.{◌≡◌};

use jb_block::Memory;
use jb_handle::{Op, TouchFault};
use thiserror::Error;

/// Something that can happen to the machine, in one step.
#[derive(Drop)]
pub enum Event {
    /// A seat begins a handle of this many credits (`jbd2_journal_start`).
    Open {
        /// Whose handle it is.
        seat: u64,
        /// How many different home blocks it may touch.
        credits: u32,
    },
    /// The seat's handle changes a home block.
    Touch {
        /// Whose handle it is.
        seat: u64,
        /// The change.
        op: Op,
    },
    /// The seat's handle is done: it gets the next ticket and joins the queue (`jbd2_journal_stop`).
    Stop {
        /// Whose handle it is.
        seat: u64,
    },
    /// The seat's handle is dropped with all of its changes.
    Abandon {
        /// Whose handle it is.
        seat: u64,
    },
    /// A committer takes the whole queue, cut into groups at these bounds: a commit begins.
    Take {
        /// 0 first, then the end of each group, counted in handles.
        bounds: Vec<usize>,
    },
    /// The first taken groups are committed (`jbd2_journal_commit_transaction` ends for each).
    Settle {
        /// How many groups.
        n: usize,
    },
    /// The oldest settled group that is not counted yet is written home (`jbd2_log_do_checkpoint`).
    Checkpoint,
    /// The machine stops: some taken groups were committed, and all that is not
    /// settled is lost.
    Crash {
        /// How many groups were committed.
        n: usize,
    },
    /// The machine comes up again, over what is settled (`jbd2_journal_recover`). Tickets begin at 0 again.
    Restart,
}

/// What an event answers that is not refused.
#[derive(Clone, Copy, Debug, PartialEq, Eq)]
pub enum Reply {
    /// It is done.
    Plain,
    /// It is done, and the handle has this ticket.
    Ticket(u64),
}

/// Why an event is refused. The machine is as it was. Where several hold, the first is answered.
#[derive(Clone, Copy, Debug, PartialEq, Eq, Error)]
pub enum CoreFault {
    /// The machine is down, and the event is no restart.
    #[error("the machine is down; restart it")]
    Down,
    /// The machine is up, and needs no restart.
    #[error("the machine is up, and needs no restart")]
    Up,
    /// The seat has an open handle.
    #[error("the seat has an open handle; stop or abandon it first")]
    Busy,
    /// The seat has no open handle.
    #[error("the seat has no open handle; open one first")]
    NoHandle,
    /// More credits than a handle may have, which are these.
    #[error("a handle may have at most {0} credits")]
    TooManyCredits(u32),
    /// So many credits are reserved that there is no room for more, or no ticket is left.
    #[error("no room beside {0} reserved credits; settle handles first")]
    Full(u64),
    /// The home block is new to the handle, and all of its credits, this many, are used.
    #[error("all {0} credits of the handle are used; open one with more")]
    NoCredit(u32),
    /// The home block of this number is none of the journal's.
    #[error("the journal has no home block {0}")]
    OutOfRange(u64),
    /// The bytes are not as many as a block has.
    #[error("the bytes are not as many as a block has")]
    Length,
    /// Nothing is queued.
    #[error("nothing is queued; stop a handle first")]
    Empty,
    /// Groups are taken that are not settled.
    #[error("groups are taken that are not settled; settle them first")]
    BatchOut,
    /// The bounds are no least cut of the queue.
    #[error("the bounds are no least cut of the queue; plan it again")]
    NotLeast,
    /// Fewer groups are taken than that.
    #[error("fewer groups are taken than that")]
    Amount,
    /// Every settled group is counted as written home.
    #[error("every settled group is counted as written home")]
    Nothing,
    /// There was no memory for the step.
    #[error("out of memory; take the step again")]
    Memory,
}

impl From<TouchFault> for CoreFault {
    ghost use Rattle.jb_core.specs.Machine.{fault_of};

    ghost from_gives = { λ fault given. given ≡ fault_of fault };

    fn from(fault: TouchFault) -> CoreFault {
        match fault {
            TouchFault::NoCredit(credits) => CoreFault::NoCredit(credits),
            TouchFault::OutOfRange(home) => CoreFault::OutOfRange(home),
            TouchFault::Length => CoreFault::Length,
            TouchFault::Memory => CoreFault::Memory,
        }
    }
}

impl From<Memory> for CoreFault {
    ghost use Rattle.jb_core.specs.declared.event.CoreFault.TheVariants.{Memory};

    ghost from_gives = { λ _ given. given ≡ Memory };

    fn from(_: Memory) -> CoreFault {
        CoreFault::Memory
    }
}
