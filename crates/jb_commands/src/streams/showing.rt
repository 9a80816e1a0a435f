//! Home blocks that are shown, and an image that is judged where none is asked for.
ghost use Rattle.std.specs.Prelude.{◌≡◌};
ghost use Rattle.jb_commands.specs.Cat.{LooksOn, ShowsOn};

use crate::fault::CommandFault;
use crate::streams::catting::{ShownHomes, cat_on};
use crate::streams::checking::peek_by;
use jb_block::MOST_BYTES;
use jb_disk::Disk;
use jb_super::Checksums;
use std::alloc::Global;
use std::io::Write;

/// Writes this many home blocks of a disk from this one on, as [`cat_on`]. Where none is asked for, the first one is
/// peeked at all the same, so that no image passes unread, and nothing is written.
///
/// # Errors
/// Those of `cat_on`.
pub(crate) fn show_on<'a, D: Disk, O: Write>(
    alloc: Global,
    disk: &mut D,
    shown: ShownHomes,
    homes: Option<u64>,
    out: &mut O,
) -> Result<u8, CommandFault<'a>>
    // `cat` of no block: the first one is peeked at, and nothing written; it ends well where the peek is not refused.
    ensures shows { ShowsOn shown.sums D.Disk homes shown.home shown.count shown.hex disk.old disk.new
        (O.contents out.old) (O.contents out.new) result }
{
    if shown.count == 0 {
        return look_on(disk, shown.home, homes, shown.sums);
    }
    cat_on(alloc, disk, shown, homes, out)
}

/// Peeks at a home block, and gives status 0. The disk is not written or synced.
///
/// # Errors
/// `CommandFault::Super`, `CommandFault::BadRevoke` and `CommandFault::NoHome` where the peek is refused, the last with
/// the number of home blocks, where that is known; `CommandFault::DeviceFault` where a call of the disk failed.
fn look_on<'a, D: Disk>(
    disk: &mut D,
    home: u64,
    homes: Option<u64>,
    sums: Checksums,
) -> Result<u8, CommandFault<'a>>
    ensures looks { LooksOn sums D.Disk homes home disk.old disk.new result }
{
    let mut block = [0u8; MOST_BYTES];
    let bytes = &mut block[..disk.block_size().bytes() as usize];
    match peek_by(disk, home, bytes, sums) {
        Ok(()) => Ok(0),
        Err(fault) => Err(CommandFault::of_peek(fault, homes)),
    }
}
