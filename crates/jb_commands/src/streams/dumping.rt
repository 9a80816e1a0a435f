ghost use Rattle.std.specs.Prelude.{◌≡◌, None};
ghost use Rattle.jb_commands.specs.Dump.{DumpsOn, DumpsSaying, end_saying as end_said};

use crate::fault::CommandFault;
use crate::progress::ShownProgress;
use crate::streams::watched_reader::WatchedReader;
use jb_dump::{DumpFilter, dump_chosen};
use std::alloc::Global;
use std::io::{Read, Write};
use std::time::Clock;

/// Writes those lines of the text of the journal that a reader gives which a filter takes, and gives status 0. The
/// reader is read for the journal's blocks and no further.
///
/// # Errors
/// `CommandFault::ReadFault` where a read fails; `CommandFault::Super` and `CommandFault::BadRevoke` where the
/// journal has no text; `CommandFault::Memory` where memory ran out; `CommandFault::WriteFault` where `out` took
/// only the beginning of the text. But for the last nothing was written.
pub fn dump_from<'a, I: Read, O: Write>(
    alloc: Global,
    journal: &mut I,
    filter: DumpFilter,
    out: &mut O,
) -> Result<u8, CommandFault<'a>>
    ensures dumps { DumpsOn filter (I.remaining journal.old) (I.remaining journal.new) (O.contents out.old)
        (O.contents out.new) result }
{
    match dump_chosen(alloc, journal, out, filter) {
        Ok(()) => Ok(0),
        Err(fault) => Err(CommandFault::from(fault)),
    }
}

/// The same of a reader whose progress is shown. Gives it back, too, once nothing is shown any more.
///
/// # Errors
/// Those of `dump_from`; a `CommandFault::ReadFault` has the number of the system's error, where that has one.
pub(crate) fn dump_watched<'a, I: Read, K: Clock, O: Write>(
    alloc: Global,
    reader: I,
    progress: ShownProgress<'_, K>,
    filter: DumpFilter,
    out: &mut O,
) -> (I, Result<u8, CommandFault<'a>>)
    ensures dumps { DumpsSaying filter None None (O.contents out.old) (O.contents out.new) result.1 }
{
    let mut watched = WatchedReader::of(reader, progress);
    let end = dump_from(alloc, &mut watched, filter, out);
    let (reader, code) = watched.into_inner();
    (reader, end_saying(end, code))
}

/// How a command ends whose reader has this number of the system's error.
fn end_saying<'a>(
    end: Result<u8, CommandFault<'a>>,
    code: Option<i32>,
) -> Result<u8, CommandFault<'a>>
    ensures { result ≡ end_said code end.entry }
{
    match end {
        Ok(status) => Ok(status),
        Err(fault) => Err(fault.with_code(code)),
    }
}
