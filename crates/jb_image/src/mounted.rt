//! Whether a device is mounted, or a file by a loop device.
//!
//! A device that is opened with `O_EXCL` is refused by the system where it is mounted; std has no such flag, so the
//! list of mounts is read. What is mounted is a device, and may stand on a file (`mount -o loop`), or on a stretch of
//! another device; what is to be changed may stand on one too. Where the two have a byte in common it is mounted. Files
//! are compared by device and inode, so another name of the file is found too, and a file within the file system that
//! is mounted is none. A loop device that is not mounted, as `losetup` makes one, keeps nobody out.
//!
//! Not found are a mount that this process does not see; one of a device that stands on this one, as a RAID or an
//! encrypted device does, or of a file system that the list has without a device, as one of btrfs; and one by a loop
//! device whose file has got another file's name, one that this process may not look for, or none that is UTF-8.
ghost use Rattle.std.specs.Prelude.{◌≡◌};
ghost use Rattle.jb_image.specs.Grounds.{may_stand_on as may_stand};

use crate::fault::ImageFault;
use crate::ground::{Base, Ground};
use crate::mount_line::device_of;
use crate::refusals::mounts_fault;
use std::fs;
use std::fs::{File, Metadata};
use std::rt::Files;

/// The system's list of the mounts that this process sees, a line each.
const MOUNTS: &str = "/proc/self/mountinfo";

/// The first number of a loop device, and of a partition of one.
const LOOP: u64 = 7;

const PARTITION: u64 = 259;

/// Whether a file or block device is mounted: it has a byte in common with what a mounted device stands on.
///
/// # Errors
/// `MountsUnknown` where that is not found, and the system does not say what is mounted, or on what a mounted device
/// stands; `Memory` where there is none for what it says.
pub(crate) fn is_mounted<R: Files<File = File> + AllocGlobal>(
    rt: &R,
    metadata: &Metadata,
) -> Result<bool, ImageFault> {
    match fs::read(rt, MOUNTS) {
        Ok(mounts) => is_among(rt, mounts.as_slice(), Base::of(metadata)),
        Err(error) => Err(mounts_fault(error.kind())),
    }
}

/// Whether one of these lines is the mount of what stands on this.
fn is_among<R: Files<File = File> + AllocGlobal>(
    rt: &R,
    mounts: &[u8],
    base: Base,
) -> Result<bool, ImageFault> {
    // a process that sees the list sees a mount
    let mut unknown = mounts.is_empty();
    for line in mounts.split(|byte| *byte == b'\n') {
        match is_mount_of(rt, line, base) {
            Ok(true) => return Ok(true),
            Ok(false) => {}
            Err(ImageFault::MountsUnknown) => unknown = true,
            Err(fault) => return Err(fault),
        }
    }
    if unknown {
        Err(ImageFault::MountsUnknown)
    } else {
        Ok(false)
    }
}

/// Whether the mount of a line, or of none where it is empty, is one of this.
fn is_mount_of<R: Files<File = File> + AllocGlobal>(
    rt: &R,
    line: &[u8],
    base: Base,
) -> Result<bool, ImageFault> {
    if line.is_empty() {
        return Ok(false);
    }
    let Some((major, minor)) = device_of(line) else {
        return Err(ImageFault::MountsUnknown);
    };
    let mounted = Base::Device(major, minor);
    if base == mounted {
        return Ok(true);
    }
    if !may_stand_on(base, major) {
        return Ok(false);
    }
    Ok(Ground::of(rt, base)?.meets(Ground::of(rt, mounted)?))
}

/// Whether a device of this number may stand on this: on a file only a loop device does, and a partition of one.
fn may_stand_on(base: Base, major: u64) -> bool
    ensures { result ≡ may_stand base major }
{
    match base {
        Base::File(_, _) => major == LOOP || major == PARTITION,
        // a file system on no device has 0
        Base::Device(_, _) => major != 0,
    }
}
