use jb_disk::Failure;
use jb_handle::TouchFault;
use jb_journal::{BeginFault, HandleFault, OpenFault};

/// Why nothing was loaded, or why it is not known what was.
#[derive(Clone, Copy, Debug, PartialEq, Eq)]
pub enum LoadFault {
    /// The block size of the queue is not that of the disk.
    BlockSize,
    /// The journal on the disk was not opened, for this; and the last call of the disk that failed, where it tells one.
    Open(OpenFault, Option<Failure>),
    /// Memory ran out.
    Memory,
    /// The accounts of the desk do not agree. This cannot happen.
    Accounts,
}

/// Why a handle of the queue did not stop.
#[derive(Clone, Copy, Debug, PartialEq, Eq)]
pub enum QueueHandleFault {
    /// The journal has failed.
    Aborted,
    /// The desk is shut.
    Closed,
    /// The desk lists an open handle of the worker.
    Busy,
    /// It touches more blocks than a handle may have credits, which are these.
    TooManyCredits(u32),
    /// So many credits are reserved that there was no room for more, as often as it was asked.
    Full(u64),
    /// It touches more blocks than it has credits, which are these.
    NoCredit(u32),
    /// The home block of this number is none of the journal's.
    OutOfRange(u64),
    /// A copy has not as many bytes as a block.
    Length,
    /// The desk does not list it as open.
    NotOpen,
    /// Memory ran out.
    Memory,
}

impl From<BeginFault> for QueueHandleFault {
    ghost use Rattle.std.specs.Prelude.{◌≡◌};
    ghost use Rattle.jb_tool.specs.Faults.{not_begun};

    ghost from_gives = { λ fault given. given ≡ not_begun fault };

    fn from(fault: BeginFault) -> QueueHandleFault {
        match fault {
            BeginFault::Aborted => QueueHandleFault::Aborted,
            BeginFault::Closed => QueueHandleFault::Closed,
            BeginFault::Busy => QueueHandleFault::Busy,
            BeginFault::TooManyCredits(most) => QueueHandleFault::TooManyCredits(most),
            BeginFault::Full(reserved) => QueueHandleFault::Full(reserved),
            BeginFault::Memory => QueueHandleFault::Memory,
        }
    }
}

impl From<TouchFault> for QueueHandleFault {
    ghost use Rattle.std.specs.Prelude.{◌≡◌};
    ghost use Rattle.jb_tool.specs.Faults.{not_touched};

    ghost from_gives = { λ fault given. given ≡ not_touched fault };

    fn from(fault: TouchFault) -> QueueHandleFault {
        match fault {
            TouchFault::NoCredit(credits) => QueueHandleFault::NoCredit(credits),
            TouchFault::OutOfRange(home) => QueueHandleFault::OutOfRange(home),
            TouchFault::Length => QueueHandleFault::Length,
            TouchFault::Memory => QueueHandleFault::Memory,
        }
    }
}

impl From<HandleFault<TouchFault>> for QueueHandleFault {
    ghost use Rattle.std.specs.Prelude.{◌≡◌};
    ghost use Rattle.jb_tool.specs.Faults.{not_stopped};

    ghost from_gives = { λ fault given. given ≡ not_stopped fault };

    fn from(fault: HandleFault<TouchFault>) -> QueueHandleFault {
        match fault {
            HandleFault::Begin(fault) => QueueHandleFault::from(fault),
            HandleFault::Refused(fault) => QueueHandleFault::from(fault),
            HandleFault::Aborted => QueueHandleFault::Aborted,
            HandleFault::NotOpen => QueueHandleFault::NotOpen,
            HandleFault::Memory => QueueHandleFault::Memory,
        }
    }
}

impl QueueHandleFault {
    ghost use Rattle.std.specs.Prelude.{◌≡◌};
    ghost use Rattle.jb_tool.specs.LoadLines.{name_of, number_named};

    /// Its name.
    pub fn name(self) -> &'static str
        ensures { result.now ≡ name_of self }
    {
        match self {
            QueueHandleFault::Aborted => "Aborted",
            QueueHandleFault::Closed => "Closed",
            QueueHandleFault::Busy => "Busy",
            QueueHandleFault::TooManyCredits(_) => "TooManyCredits",
            QueueHandleFault::Full(_) => "Full",
            QueueHandleFault::NoCredit(_) => "NoCredit",
            QueueHandleFault::OutOfRange(_) => "OutOfRange",
            QueueHandleFault::Length => "Length",
            QueueHandleFault::NotOpen => "NotOpen",
            QueueHandleFault::Memory => "Memory",
        }
    }

    /// Its number, where it has one.
    pub fn number(self) -> Option<u64>
        ensures { result ≡ number_named self }
    {
        match self {
            QueueHandleFault::TooManyCredits(credits) | QueueHandleFault::NoCredit(credits) => {
                Some(u64::from(credits))
            }
            QueueHandleFault::Full(number) | QueueHandleFault::OutOfRange(number) => Some(number),
            QueueHandleFault::Aborted | QueueHandleFault::Closed | QueueHandleFault::Busy => None,
            QueueHandleFault::Length | QueueHandleFault::NotOpen | QueueHandleFault::Memory => None,
        }
    }
}
