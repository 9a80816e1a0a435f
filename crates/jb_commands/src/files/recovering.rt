//! Images that are recovered: of a journal within its home blocks it is foreseen first what would be written.
ghost use Rattle.std.specs.Prelude.{◌≡◌};
ghost use Rattle.jb_image.specs.Files.{as_disks};
ghost use Rattle.jb_commands.specs.Foresee.{own_checked};
ghost use Rattle.jb_commands.specs.JournalPlace.{ChecksOwn, JudgesOwn, RecoversImage};
ghost use Rattle.jb_commands.specs.Watched.{watched};

use crate::fault::CommandFault;
use crate::files::watched::{foresee_unread_watched, foresee_watched, recover_watched};
use crate::report::Report;
use crate::streams::WatchedDisk;
use jb_disk::Disk;
use jb_ext::MapSource;
use jb_image::{ExtentsFault, ImageDisk};
use jb_recover::{CheckedFault, Foreseen};
use jb_super::Checksums;
use std::alloc::Global;
use std::time::Clock;

/// Recovers an image. Where its journal is within its home blocks, it is foreseen first whether no copy is for one
/// of those.
///
/// # Errors
/// Those of `recover_on`, and `CommandFault::Extents` for such a copy: nothing is written then.
pub(crate) fn recover_image<'a, D: Disk, E: Disk, K: Clock>(
    alloc: Global,
    disk: &mut WatchedDisk<'_, ImageDisk<D, E>, K>,
    homes: u64,
    found: Option<MapSource>,
    sums: Checksums,
) -> Result<Report, CommandFault<'a>>
    ensures recovers { RecoversImage (as_disks D.Disk E.Disk) sums homes found (watched disk.old) (watched disk.new)
        result }
{
    match check_own(alloc, disk, homes, sums) {
        Ok(()) => recover_watched(alloc, disk, homes, found, sums),
        Err(fault) => Err(fault),
    }
}

/// Whether a recovery of an image may write: no copy is for a home block that is the journal's own, where that is
/// within the home blocks. The data of copies is read only where one is; else the recovery itself judges it.
fn check_own<'a, D: Disk, E: Disk, K: Clock>(
    alloc: Global,
    disk: &mut WatchedDisk<'_, ImageDisk<D, E>, K>,
    homes: u64,
    sums: Checksums,
) -> Result<(), CommandFault<'a>>
    ensures checks { ChecksOwn (as_disks D.Disk E.Disk) sums homes (watched disk.old) (watched disk.new) result }
{
    if !disk.inner().is_within() {
        return Ok(());
    }
    match foresee_unread_watched(alloc, disk, sums) {
        Ok(told) => match disk.inner().first_own(told.homes.as_slice()) {
            None => Ok(()),
            Some(_) => judge_own(alloc, disk, homes, sums),
        },
        Err(fault) => Err(CommandFault::of_recovery(fault, Some(homes))),
    }
}

/// The same by all that a recovery judges, which may refuse something before such a copy.
fn judge_own<'a, D: Disk, E: Disk, K: Clock>(
    alloc: Global,
    disk: &mut WatchedDisk<'_, ImageDisk<D, E>, K>,
    homes: u64,
    sums: Checksums,
) -> Result<(), CommandFault<'a>>
    ensures judges { JudgesOwn (as_disks D.Disk E.Disk) sums homes (watched disk.old) (watched disk.new) result }
{
    let answer = foresee_watched(alloc, disk, sums);
    own_end(disk.inner(), homes, answer)
}

/// Whether a recovery of an image may write, by what was foreseen.
fn own_end<'a, D: Disk, E: Disk>(
    disk: &ImageDisk<D, E>,
    homes: u64,
    answer: Result<Foreseen, CheckedFault>,
) -> Result<(), CommandFault<'a>>
    ensures { result ≡ own_checked disk.now homes answer }
{
    match answer {
        Ok(told) => match disk.first_own(told.homes.as_slice()) {
            None => Ok(()),
            Some(home) => Err(CommandFault::Extents(ExtentsFault::Home(home))),
        },
        Err(fault) => Err(CommandFault::of_recovery(fault, Some(homes))),
    }
}
