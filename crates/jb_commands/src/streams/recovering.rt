ghost use Rattle.std.specs.Prelude.{◌≡◌, ◌∷◌, ◌++◌, [], codes, if◌then◌else◌};
ghost use Rattle.jb_json.specs.Facts.{Listed};
ghost use Rattle.jb_commands.specs.AnswerForms.{text_in};
ghost use Rattle.jb_commands.specs.Recover.{RecoversOn, is_backup as is_so, recovered_facts, recovery_end as ends_so};
ghost use Rattle.jb_commands.specs.Outputs.{TellsLine, line_end};

use crate::fault::CommandFault;
use crate::program_end::ProgramEnd;
use crate::report::Report;
use crate::streams::checking::recover_by;
use crate::streams::telling::tell_fields;
use jb_args::AnswerForm;
use jb_disk::Disk;
use jb_ext::MapSource;
use jb_json::Field;
use jb_recover::{CheckedFault, Recovered};
use jb_super::Checksums;
use jb_text::WriteFault;
use std::alloc::Global;
use std::io::Write;

/// Recovers the journal at the front of a disk: the home blocks after it are written as its committed transactions say,
/// and its log is emptied. Reports how many transactions there were, how many copies were written and how many are
/// revoked, and the number of the next transaction; and what said where the journal is, where it was looked for.
/// Only the recovery takes memory. The journal has checksums only where these are allowed, and is judged by them.
///
/// # Errors
/// `CommandFault::Super`, `CommandFault::BadRevoke` and `CommandFault::HomeOutOfRange`, the last with the number of
/// home blocks where that is known, where the disk is refused, and where checksums are allowed `ChecksumType`,
/// `SuperChecksum` and `BadChecksum`, and `CommandFault::Memory` where a growth was refused:
/// the disk is as it was; `CommandFault::DeviceFault` where a call of the disk failed: recovery is to be called again.
pub fn recover_on<'a, D: Disk>(
    alloc: Global,
    disk: &mut D,
    homes: Option<u64>,
    found: Option<MapSource>,
    sums: Checksums,
) -> Result<Report, CommandFault<'a>>
    /// `recover` over any disk: what it answered is the end.
    ensures recovers { RecoversOn sums D.Disk homes found disk.old disk.new result }
{
    let answer = recover_by(alloc, disk, sums);
    recovery_end(answer, homes, found)
}

/// What a recovery answered, as the command's end.
fn recovery_end<'a>(
    answer: Result<Recovered, CheckedFault>,
    homes: Option<u64>,
    found: Option<MapSource>,
) -> Result<Report, CommandFault<'a>>
    ensures { result ≡ ends_so homes found answer }
{
    match answer {
        Ok(done) => Ok(Report::Recovered(done, found)),
        Err(fault) => Err(CommandFault::of_recovery(fault, homes)),
    }
}

/// Writes what a recovery reports.
pub(crate) fn tell_recovered<O: Write>(
    form: AnswerForm,
    done: Recovered,
    found: Option<MapSource>,
    out: &mut O,
) -> Result<ProgramEnd, WriteFault>
    ensures { TellsLine (text_in form (recovered_facts found done)) (O.contents out.old) (O.contents out.new)
        (line_end result) }
{
    tell_counts(form, done, found, &[], false, out)
}

/// Writes the counts of a recovery, and whether the journal was found by the superblock's copy of its map; where they
/// are listed, also these home blocks.
pub(crate) fn tell_counts<O: Write>(
    form: AnswerForm,
    done: Recovered,
    found: Option<MapSource>,
    homes: &[u64],
    listed: bool,
    out: &mut O,
) -> Result<ProgramEnd, WriteFault>
    ensures { TellsLine (text_in form (recovered_facts found done
        ++ (if listed then Listed (codes "homes") (codes "home") homes.now ∷ [] else [])))
        (O.contents out.old) (O.contents out.new) (line_end result) }
{
    let fields = [
        Field::Counted("transactions", u64::from(done.transactions)),
        Field::Counted("copies", u64::from(done.copies)),
        Field::Counted("revoked", u64::from(done.revoked)),
        Field::Counted("next", done.next),
        Field::Marked("backup", is_backup(found)),
        Field::Listed("homes", "home", homes),
    ];
    if listed {
        return tell_fields(form, &fields, out);
    }
    tell_fields(form, &fields[..5], out)
}

/// Whether a journal was found by the superblock's copy of its map.
fn is_backup(found: Option<MapSource>) -> bool
    ensures { result ≡ is_so found }
{
    match found {
        Some(MapSource::Backup) => true,
        Some(MapSource::Inode) | None => false,
    }
}
