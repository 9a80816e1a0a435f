//! The long calls of commands, of a disk whose progress is shown: what is said of them is said of the disk within.
ghost use Rattle.std.specs.Prelude.{Some};
ghost use Rattle.jb_commands.specs.Cat.{ShowsOn};
ghost use Rattle.jb_commands.specs.Checking.{ForetellsBy, ForetellsUnreadBy};
ghost use Rattle.jb_commands.specs.Recover.{RecoversOn};
ghost use Rattle.jb_commands.specs.Watched.{watched};

use crate::fault::CommandFault;
use crate::report::Report;
use crate::streams::{ShownHomes, WatchedDisk, foresee_by, foresee_unread_by, recover_on, show_on};
use jb_disk::Disk;
use jb_ext::MapSource;
use jb_recover::{CheckedFault, Foreseen};
use jb_super::Checksums;
use std::alloc::Global;
use std::io::Write;
use std::time::Clock;

/// Recovers the journal at the front of a disk with this many home blocks, as `recover_on` does.
///
/// # Errors
/// Those of `recover_on`.
pub(crate) fn recover_watched<'a, D: Disk, K: Clock>(
    alloc: Global,
    disk: &mut WatchedDisk<'_, D, K>,
    homes: u64,
    found: Option<MapSource>,
    sums: Checksums,
) -> Result<Report, CommandFault<'a>>
    ensures recovers { RecoversOn sums D.Disk (Some homes) found (watched disk.old) (watched disk.new) result }
{
    recover_on(alloc, disk, Some(homes), found, sums)
}

/// Says what a recovery of a disk would do, as `foresee_by` does.
///
/// # Errors
/// Those of `foresee_by`.
pub(crate) fn foresee_watched<D: Disk, K: Clock>(
    alloc: Global,
    disk: &mut WatchedDisk<'_, D, K>,
    sums: Checksums,
) -> Result<Foreseen, CheckedFault>
    ensures foretells { ForetellsBy sums D.Disk (watched disk.old) (watched disk.new) result }
{
    foresee_by(alloc, disk, sums)
}

/// The same but for the data of copies, as `foresee_unread_by` does.
///
/// # Errors
/// Those of `foresee_unread_by`.
pub(crate) fn foresee_unread_watched<D: Disk, K: Clock>(
    alloc: Global,
    disk: &mut WatchedDisk<'_, D, K>,
    sums: Checksums,
) -> Result<Foreseen, CheckedFault>
    ensures foretells { ForetellsUnreadBy sums D.Disk (watched disk.old) (watched disk.new) result }
{
    foresee_unread_by(alloc, disk, sums)
}

/// Writes home blocks of a disk with this many of them, as `show_on` does.
///
/// # Errors
/// Those of `show_on`.
pub(crate) fn show_watched<'a, D: Disk, K: Clock, O: Write>(
    alloc: Global,
    disk: &mut WatchedDisk<'_, D, K>,
    shown: ShownHomes,
    homes: u64,
    out: &mut O,
) -> Result<u8, CommandFault<'a>>
    ensures shows { ShowsOn shown.sums D.Disk (Some homes) shown.home shown.count shown.hex (watched disk.old)
        (watched disk.new) (O.contents out.old) (O.contents out.new) result }
{
    show_on(alloc, disk, shown, Some(homes), out)
}
