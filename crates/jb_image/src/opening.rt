//! Images that are there: opened, and locked for as long as they are open.
ghost use Rattle.std.specs.Prelude.{◌≡◌, IfOk};
ghost use Rattle.jb_disk.specs.File.{IsMeasured, faults_of, size_of_blocks};

use crate::fault::ImageFault;
use crate::mounted::is_mounted;
use crate::refusals::{lock_answer, may_open};
use crate::unfinished::forget;
use jb_block::BlockSize;
use jb_disk::{FileDisk, Start, SystemFault};
use std::fs::{File, Metadata, OpenOptions};
use std::os::unix::fs::{FileTypeExt, MetadataExt};
use std::rt::Files;
use std::{fs, io};

/// What an image is opened for.
#[derive(Clone, Copy, PartialEq, Eq)]
pub enum Opening {
    /// It is read: other programs that only read it may have it open too.
    Read,
    /// It is changed: no other program may have it open.
    Change,
    /// It is changed, even where the system does not say whether it is mounted.
    Forced,
}

/// The image of this name as a disk in blocks of this size, locked for as long as the disk is there.
///
/// # Errors
/// Those of [`open_file`]; `System` also where the system does not give the file's end.
pub fn open_image<R: Files<File = File> + AllocGlobal>(
    rt: &R,
    name: &str,
    size: BlockSize,
    opening: Opening,
) -> Result<FileDisk, ImageFault>
    ensures size { IfOk result (λ disk. size_of_blocks disk ≡ size) }
    ensures fresh { IfOk result (λ disk. faults_of disk ≡ 0) }
    ensures opened { IfOk result IsMeasured }
{
    open_holding(rt, name, size, opening)
}

/// The same, of a file that is supposed to hold what `S` says.
///
/// # Errors
/// As those of [`open_image`].
pub fn open_holding<S: Start, R: Files<File = File> + AllocGlobal>(
    rt: &R,
    name: &str,
    size: BlockSize,
    opening: Opening,
) -> Result<FileDisk<S>, ImageFault>
    ensures size { IfOk result (λ disk. size_of_blocks disk ≡ size) }
    ensures fresh { IfOk result (λ disk. faults_of disk ≡ 0) }
    /// A file that is opened was asked its length and nothing else.
    ensures opened { IfOk result IsMeasured }
{
    let file = open_file(rt, name, opening)?;
    match FileDisk::<S>::holding(file, size) {
        Ok(disk) => Ok(disk),
        Err(_) => Err(ImageFault::System(SystemFault { code: None })),
    }
}

/// The regular file or block device of this name, opened for reading, or for writing too, and locked for as long as it
/// is open: for who changes it alone, or shared by all that read it. A file on a file system without locks is used
/// without one. The lock is one of `flock`: a program that takes none is not kept out. A file that is opened for change
/// loses its other name, of the [making](crate::create_image), which a killed process has left.
///
/// # Errors
/// In this order: `OtherKind` where it is of another kind; `System` where the system does not open it; where it is
/// opened for change, `Mounted` where it is mounted, a file by a loop device, and unless that is forced `MountsUnknown`
/// where the system does not say so; `InUse` where another process has locked it, and `System` where the system refuses
/// the lock for any other reason. `Memory` where memory ran out.
pub fn open_file<R: Files<File = File> + AllocGlobal>(
    rt: &R,
    name: &str,
    opening: Opening,
) -> Result<File, ImageFault> {
    // a file of another kind is not even opened: that may wait, or wake another program
    may_be_image(fs::metadata(rt, name))?;
    let writes = opening != Opening::Read;
    let file = OpenOptions::new().read(true).write(writes).open(rt, name)?;
    // the name may be that of another file by now
    let metadata = may_be_image(file.metadata())?;
    if writes {
        may_open(opening, is_mounted(rt, &metadata))?;
    }
    lock(&file, opening)?;
    if writes && metadata.nlink() > 1 {
        forget(rt, name, &file)?;
    }
    Ok(file)
}

/// What the system says of a file that is a regular one or a block device.
fn may_be_image(metadata: io::Result<Metadata>) -> Result<Metadata, ImageFault> {
    let metadata = metadata?;
    if metadata.is_file() || metadata.file_type().is_block_device() {
        return Ok(metadata);
    }
    Err(ImageFault::OtherKind)
}

/// Locks a file for as long as it is open, where its file system has locks.
///
/// # Errors
/// `InUse` where another process has locked it; `System` or `Memory` where the system refuses it for another reason.
pub(crate) fn lock(file: &File, opening: Opening) -> Result<(), ImageFault> {
    lock_answer(match opening {
        Opening::Change | Opening::Forced => file.try_lock(),
        Opening::Read => file.try_lock_shared(),
    })
}
