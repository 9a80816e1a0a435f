//! Why a call of a disk failed, as the system says it.
use std::io::ErrorKind;
use std::{fmt, io};

/// What the system said of a call that it refused.
#[derive(Clone, Copy, Debug, PartialEq, Eq)]
pub struct SystemFault {
    /// The number of its error, where it has one.
    pub code: Option<i32>,
}

impl SystemFault {
    /// Whether there is no file of the name.
    pub fn is_not_found(&self) -> bool {
        match self.code {
            Some(code) => io::Error::from_raw_os_error(code).kind() == ErrorKind::NotFound,
            None => false,
        }
    }

    /// What to look at first.
    pub fn cause(&self) -> FailureCause {
        let Some(code) = self.code else {
            return FailureCause::Other;
        };
        match io::Error::from_raw_os_error(code).kind() {
            ErrorKind::StorageFull => FailureCause::NoSpace,
            ErrorKind::QuotaExceeded => FailureCause::Quota,
            ErrorKind::FileTooLarge => FailureCause::TooBig,
            ErrorKind::PermissionDenied | ErrorKind::ReadOnlyFilesystem => FailureCause::Permission,
            _ if code == EIO => FailureCause::Io,
            _ => FailureCause::Other,
        }
    }
}

impl fmt::Display for SystemFault {
    fn fmt<W: fmt::Write>(&self, f: &mut fmt::Formatter<W>) -> fmt::Result {
        match self.code {
            Some(code) => write!(f, "{}", io::Error::from_raw_os_error(code)),
            None => write!(f, "the system gives no reason"),
        }
    }
}

/// The number of an error of the device (`EIO`), for which there is no kind.
const EIO: i32 = 5;

/// A call of a disk, with the place at which it began; of a run of blocks that of the first.
#[derive(Clone, Copy, Debug, PartialEq, Eq)]
pub enum FailedCall {
    /// A read of blocks from this place on.
    Read(u64),
    /// A write of blocks from this place on.
    Write(u64),
    /// A sync.
    Sync,
}

impl fmt::Display for FailedCall {
    fn fmt<W: fmt::Write>(&self, f: &mut fmt::Formatter<W>) -> fmt::Result {
        match *self {
            FailedCall::Read(place) => write!(f, "read at block {}", place),
            FailedCall::Write(place) => write!(f, "write at block {}", place),
            FailedCall::Sync => write!(f, "sync"),
        }
    }
}

/// Why a call of a disk failed.
#[derive(Clone, Copy, Debug, PartialEq, Eq)]
pub enum FailureReason {
    /// The system refused it.
    System(SystemFault),
    /// It moved fewer bytes than were asked for: a read at the end of a file that has become shorter, or a write for
    /// which there was no room.
    Short,
}

impl fmt::Display for FailureReason {
    fn fmt<W: fmt::Write>(&self, f: &mut fmt::Formatter<W>) -> fmt::Result {
        match self {
            FailureReason::System(fault) => fault.fmt(f),
            FailureReason::Short => write!(f, "fewer bytes were moved than asked for"),
        }
    }
}

/// What a call failed for, as far as one does something of its own about it.
#[derive(Clone, Copy, Debug, PartialEq, Eq)]
pub enum FailureCause {
    /// The file system has no room (`ENOSPC`).
    NoSpace,
    /// A quota has none (`EDQUOT`).
    Quota,
    /// The file would be longer than it may be (`EFBIG`), as by a limit of the process.
    TooBig,
    /// The device failed (`EIO`).
    Io,
    /// Leave is missing, or the file system may only be read (`EPERM`, `EACCES`, `EROFS`).
    Permission,
    /// A read met the end of the file: it is shorter than it was.
    Shorter,
    /// A write took a part alone, most often since there was no more room.
    Cut,
    /// Another reason, or none that the system gives.
    Other,
}

impl FailureCause {
    /// What to do about it, before the program is started anew.
    pub fn advice(self) -> &'static str {
        match self {
            FailureCause::NoSpace => "make room on its file system",
            FailureCause::Quota => "make room within its quota, or have it raised",
            FailureCause::TooBig => "have the limit of a file's size raised (ulimit -f)",
            FailureCause::Io =>
                "look at the system's log, and copy the image to another device if this one fails",
            FailureCause::Permission =>
                "see to its permission, and to whether its file system may be written",
            FailureCause::Shorter => "the file is shorter than it was: put back a copy of it",
            FailureCause::Cut => "make room on its file system or within its quota",
            FailureCause::Other => "look at the system's log",
        }
    }
}

/// A call of a disk that failed, and why.
#[derive(Clone, Copy, Debug, PartialEq, Eq)]
pub struct Failure {
    /// Which call it was. Its place is one of the disk that made the call of the system: a block of its file.
    pub call: FailedCall,
    /// Why it failed.
    pub reason: FailureReason,
}

impl Failure {
    /// What it failed for.
    pub fn cause(&self) -> FailureCause {
        match (self.reason, self.call) {
            (FailureReason::System(fault), _) => fault.cause(),
            (FailureReason::Short, FailedCall::Read(_)) => FailureCause::Shorter,
            (FailureReason::Short, _) => FailureCause::Cut,
        }
    }
}

impl fmt::Display for Failure {
    fn fmt<W: fmt::Write>(&self, f: &mut fmt::Formatter<W>) -> fmt::Result {
        write!(f, "{}: {}", self.call, self.reason)
    }
}
