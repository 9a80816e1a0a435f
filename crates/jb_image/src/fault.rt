//! Why an image is not opened, or not made.
use jb_disk::{Failure, SystemFault};
use std::alloc::AllocError;
use std::io;
use std::io::ErrorKind;
use thiserror::Error;

/// Why an image was not opened.
#[derive(Clone, Copy, Debug, PartialEq, Eq, Error)]
pub enum ImageFault {
    /// Another process has locked it, or makes it at this moment.
    #[error("another process has the image open")]
    InUse,
    /// It is mounted: a block device, or the file of a loop device.
    #[error("the image is mounted")]
    Mounted,
    /// The system does not say what is mounted: without `/proc` or `/sys`, or with no room for another open file.
    #[error("the system does not say whether the image is mounted")]
    MountsUnknown,
    /// It is neither a regular file nor a block device.
    #[error("the image is neither a regular file nor a block device")]
    OtherKind,
    /// The system refused a call; where the image is made, also since a file of the other name is there.
    #[error("the image cannot be opened or made: {0}")]
    System(SystemFault),
    /// There was no memory.
    #[error("out of memory")]
    Memory,
}

impl From<io::Error> for ImageFault {
    ghost use Rattle.std.specs.Prelude.{◌≡◌};
    ghost use Rattle.jb_image.specs.Refusals.{call_fault};

    ghost from_gives = { λ error fault. fault ≡ call_fault error };

    fn from(error: io::Error) -> ImageFault {
        match error.kind() {
            ErrorKind::OutOfMemory => ImageFault::Memory,
            _ => ImageFault::System(SystemFault {
                code: error.raw_os_error(),
            }),
        }
    }
}

impl From<AllocError> for ImageFault {
    fn from(_: AllocError) -> ImageFault {
        ImageFault::Memory
    }
}

/// Why an image was not made.
#[derive(Clone, Copy, Debug, PartialEq, Eq, Error)]
pub enum MakeFault {
    /// A journal may not have this many blocks, a file this many bytes, or a journal of the width this many home
    /// blocks.
    #[error("the numbers make no journal, too long a file, or home blocks without a number")]
    Geometry,
    /// There is a file of this name.
    #[error("there is a file of this name already")]
    Exists,
    /// The file system has no links, so the file cannot get its name without replacing one that comes by it meanwhile.
    #[error("the file system has no links; make the image on another one, and copy it")]
    NoLinks,
    /// A file was not opened, made or named.
    #[error(transparent)]
    Image(ImageFault),
    /// A call of the disk failed, for a reason that is not told.
    #[error("the disk failed; make the image again")]
    DeviceFault,
    /// This call of the disk failed.
    #[error("{0}; {advice}, and make the image again", advice = .0.cause().advice())]
    Device(Failure),
}

impl From<ImageFault> for MakeFault {
    ghost use Rattle.std.specs.Prelude.{◌≡◌};
    ghost use Rattle.jb_image.specs.declared.fault.MakeFault.TheVariants.{Image};

    ghost from_gives = { λ found fault. fault ≡ Image found };

    fn from(found: ImageFault) -> MakeFault {
        MakeFault::Image(found)
    }
}
