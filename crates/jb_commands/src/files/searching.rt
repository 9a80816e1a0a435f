//! The journal of an image, dumped, and its log searched for a transaction that it has lost.
ghost use Rattle.std.specs.Prelude.{◌≡◌, None};
ghost use Rattle.jb_args.specs.PlainCommand.{dump_said};
ghost use Rattle.jb_commands.specs.Dump.{DumpsSaying, is_searched as is_sought};
ghost use Rattle.jb_commands.specs.Searched.{DumpsDisk, DumpsSearched, end_unless_lost, lost_fault as fault_of_lost};

use crate::fault::CommandFault;
use crate::files::journals::choice_of;
use crate::progress::ShownProgress;
use crate::streams::{DiskReader, dump_watched};
use jb_args::DumpOptions;
use jb_disk::Disk;
use jb_dump::DumpFilter;
use jb_recover::{Lost, find_lost};
use std::alloc::Global;
use std::io::Write;
use std::time::Clock;

/// Writes those lines of the text of the journal at the front of a disk which the options ask for; where its ring is
/// searched, a transaction that the log has lost is reported after them.
///
/// # Errors
/// Those of `dump_from`, and of `dump_searched`.
pub(crate) fn dump_opened<'a, D: Disk + Drop, K: Clock, O: Write>(
    alloc: Global,
    disk: D,
    options: DumpOptions<'a>,
    progress: ShownProgress<'_, K>,
    out: &mut O,
) -> Result<u8, CommandFault<'a>>
    ensures dumps { DumpsDisk D.Disk (dump_said options.entry) disk (O.contents out.old) (O.contents out.new)
        result }
{
    if is_searched(options) {
        dump_searched(alloc, disk, choice_of(options), progress, out)
    } else {
        dump_disk(alloc, disk, choice_of(options), progress, out)
    }
}

/// Writes the lines that a filter takes, and reports a transaction that the log has lost, if that is shown.
///
/// # Errors
/// Those of [`find_lost`], before anything is written, and those of `dump_from`; `CommandFault::Lost` and
/// `CommandFault::BadChecksum` where a transaction is lost, once all is written.
fn dump_searched<'a, D: Disk + Drop, K: Clock, O: Write>(
    alloc: Global,
    disk: D,
    filter: DumpFilter,
    progress: ShownProgress<'_, K>,
    out: &mut O,
) -> Result<u8, CommandFault<'a>>
    ensures dumps { DumpsSearched D.Disk filter disk (O.contents out.old) (O.contents out.new) result }
{
    let mut disk = disk;
    match find_lost(&mut disk) {
        Ok(lost) => unless_lost(lost, dump_disk(alloc, disk, filter, progress, out)),
        Err(fault) => Err(CommandFault::of_peek(fault, None)),
    }
}

/// How a dump ends where a log has lost a transaction, or has not.
fn unless_lost<'a>(
    lost: Option<Lost>,
    dumped: Result<u8, CommandFault<'a>>,
) -> Result<u8, CommandFault<'a>>
    ensures { result ≡ end_unless_lost lost dumped.entry }
{
    let Some(lost) = lost else {
        return dumped;
    };
    match dumped {
        Ok(_) => Err(lost_fault(lost)),
        Err(fault) => Err(fault),
    }
}

/// What is reported of a transaction that is lost.
fn lost_fault<'a>(lost: Lost) -> CommandFault<'a>
    ensures { result ≡ fault_of_lost lost }
{
    match lost {
        Lost::Wrong(what, place) => CommandFault::BadChecksum(what, place),
        Lost::Commit(place) => CommandFault::Lost(place),
    }
}

/// Writes those lines of the text of the journal at the front of a disk which a filter takes.
fn dump_disk<'a, D: Disk + Drop, K: Clock, O: Write>(
    alloc: Global,
    disk: D,
    filter: DumpFilter,
    progress: ShownProgress<'_, K>,
    out: &mut O,
) -> Result<u8, CommandFault<'a>>
    ensures dumps { DumpsSaying filter None None (O.contents out.old) (O.contents out.new) result }
{
    let (_closed, end) = dump_watched(alloc, DiskReader::of(disk), progress, filter, out);
    end
}

/// Whether the rest of the log is searched.
fn is_searched(options: DumpOptions<'_>) -> bool
    ensures { result ≡ is_sought (dump_said options.entry) }
{
    options.ring && !(options.superblock && !options.summary)
}
