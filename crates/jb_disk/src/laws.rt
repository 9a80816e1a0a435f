//! Laws of the definitions alone.

ghost use Rattle.jb_disk.specs.Laws.{ImagesAreChosen, ImagesTakeVersions, RunsAsCalls};

use crate::{Disk, FileDisk, FuseDisk, MemoryDisk, OneFaultDisk, Start};

/// The images that a crash of a disk in memory may leave: all those of the disk's shape in which each
/// sector is one of its versions since the last sync, and no other; and each of them, and no other, is what
/// some choice of numbers names, as `MemoryDisk::crash` takes one.
pub fn crash()
    ensures versions { ImagesTakeVersions }
    /// With `versions`: A crash may leave exactly the images that choices name: those in which each sector is one of
    /// its versions since the last sync.
    ensures choices { ImagesAreChosen }
{}

/// Asks of a kind of disk that blocks in a row make of it what a call for each of them makes, so that `own` of
/// `read_run` and `write_run` holds without its condition.
pub fn runs_as_calls<D: Disk>()
    requires { RunsAsCalls D.Disk }
{}

/// It is so of a disk in memory, of a fuse, of a disk of one fault and of a file.
pub fn runs<D: Disk, S: Start>() {
    runs_as_calls::<MemoryDisk>();
    runs_as_calls::<FuseDisk<D>>();
    runs_as_calls::<OneFaultDisk<D>>();
    runs_as_calls::<FileDisk<S>>();
}
