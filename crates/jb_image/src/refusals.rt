//! What a refusal of a call of the system means.
ghost use Rattle.std.specs.Prelude.{◌≡◌};
ghost use Rattle.jb_image.specs.Refusals.{is_missing as is_missing_kind, is_unseen as is_unseen_kind};
ghost use Rattle.jb_image.specs.Refusals.{link_fault as link_fault_of, lock_answer as lock_answer_of};
ghost use Rattle.jb_image.specs.Refusals.{may_open as may_be_opened, mounts_fault as mounts_fault_of};

use crate::fault::{ImageFault, MakeFault};
use crate::opening::Opening;
use std::fs::TryLockError;
use std::io;
use std::io::ErrorKind;

/// The numbers of errors of Linux, on x86-64 and aarch64.
const EPERM: i32 = 1;

const EEXIST: i32 = 17;

const EMLINK: i32 = 31;

const EOPNOTSUPP: i32 = 95;

/// Whether a file may be used as one that is locked, by what `flock` answered: it is locked, or its file system has no
/// locks (flock(2): ENOSYS, EOPNOTSUPP).
///
/// # Errors
/// `InUse` where another process has locked it; `System` or `Memory` for any other refusal, as ENOLCK: nobody knows
/// then whether one has.
pub(crate) fn lock_answer(answer: Result<(), TryLockError>) -> Result<(), ImageFault>
    ensures { result ≡ lock_answer_of answer }
{
    match answer {
        Ok(()) => Ok(()),
        Err(TryLockError::WouldBlock) => Err(ImageFault::InUse),
        Err(TryLockError::Error(error)) => match error.kind() {
            ErrorKind::Unsupported => Ok(()),
            _ => Err(error.into()),
        },
    }
}

/// Why a file did not get a second name (link(2)).
pub(crate) fn link_fault(error: io::Error) -> MakeFault
    ensures { result ≡ link_fault_of error }
{
    match error.raw_os_error() {
        Some(EEXIST) => MakeFault::Exists,
        Some(EPERM | EMLINK | EOPNOTSUPP) => MakeFault::NoLinks,
        _ => MakeFault::Image(error.into()),
    }
}

/// The fault where the system refuses to say something of the mounts.
pub(crate) fn mounts_fault(kind: ErrorKind) -> ImageFault
    ensures { result ≡ mounts_fault_of kind }
{
    match kind {
        ErrorKind::OutOfMemory => ImageFault::Memory,
        _ => ImageFault::MountsUnknown,
    }
}

/// Whether a refusal says that there is no such file.
pub(crate) fn is_missing(kind: ErrorKind) -> bool
    ensures { result ≡ is_missing_kind kind }
{
    matches!(kind, ErrorKind::NotFound)
}

/// Whether a refusal says that there is no file of a name, or none that may be looked for.
pub(crate) fn is_unseen(kind: ErrorKind) -> bool
    ensures { result ≡ is_unseen_kind kind }
{
    matches!(
        kind,
        ErrorKind::NotFound | ErrorKind::NotADirectory | ErrorKind::PermissionDenied
    )
}

/// Whether an image may be opened, by what is known of its mounts.
///
/// # Errors
/// `Mounted` where it is mounted and would be changed; where that is not known, the fault of who asked, but for
/// `MountsUnknown` where the opening is forced.
pub(crate) fn may_open(opening: Opening, answer: Result<bool, ImageFault>) -> Result<(), ImageFault>
    ensures { result ≡ may_be_opened opening answer }
{
    match (opening, answer) {
        (Opening::Read, _) => Ok(()),
        (Opening::Change | Opening::Forced, Ok(true)) => Err(ImageFault::Mounted),
        (Opening::Change | Opening::Forced, Ok(false)) => Ok(()),
        (Opening::Forced, Err(ImageFault::MountsUnknown)) => Ok(()),
        (Opening::Change | Opening::Forced, Err(fault)) => Err(fault),
    }
}
