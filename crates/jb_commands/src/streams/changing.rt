ghost use Rattle.std.specs.Prelude.{◌≡◌};
ghost use Rattle.jb_format.specs.Renumber.{IsRenumbering, Renumbers, RenumbersAs};
ghost use Rattle.jb_format.specs.Widen.{IsWidened, Widens, WidensAs};
ghost use Rattle.jb_commands.specs.AnswerForms.{text_in};
ghost use Rattle.jb_commands.specs.Change.{ChangesOn, change_end, renumbered_facts, widened_facts};
ghost use Rattle.jb_commands.specs.Outputs.{TellsLine, line_end};
ghost use Rattle.jb_commands.specs.declared.report.Report.TheVariants.{Renumbered as ReportsRenumbered};
ghost use Rattle.jb_commands.specs.declared.report.Report.TheVariants.{Widened as ReportsWidened};

use crate::fault::CommandFault;
use crate::program_end::ProgramEnd;
use crate::report::Report;
use crate::streams::telling::tell_fields;
use jb_args::AnswerForm;
use jb_disk::Disk;
use jb_format::{ChangeFault, Renumbered, Widened, renumber, widen};
use jb_json::Field;
use jb_text::WriteFault;
use std::io::Write;

/// Gives the clean journal at the front of a disk its first number again. Reports how many blocks of its log became
/// zeros and the number of the next transaction. No memory is taken.
///
/// # Errors
/// `CommandFault::Super` where the superblock is refused, and `CommandFault::NeedsRecovery` where the log is not
/// clean: the disk is as it was; `CommandFault::DeviceFault` where a call of the disk failed: it is to be called
/// again.
pub fn renumber_on<'a, D: Disk>(disk: &mut D) -> Result<Report, CommandFault<'a>>
    /// `renumber` over any disk.
    ensures renumbers { ChangesOn D.Disk Renumbers IsRenumbering RenumbersAs ReportsRenumbered
        disk.old disk.new result }
{
    let answer = renumber(disk);
    renumbering_end(answer)
}

/// Gives the clean journal at the front of a disk block numbers of 64 bits, where it has them not. Reports whether it
/// had, with the most log blocks of a transaction. No memory is taken.
///
/// # Errors
/// As those of `renumber_on`.
pub fn widen_on<'a, D: Disk>(disk: &mut D) -> Result<Report, CommandFault<'a>>
    /// `widen` over any disk.
    ensures widens { ChangesOn D.Disk Widens IsWidened WidensAs ReportsWidened disk.old disk.new result }
{
    let answer = widen(disk);
    widening_end(answer)
}

/// What a renumbering answered, as the command's end.
fn renumbering_end<'a>(answer: Result<Renumbered, ChangeFault>) -> Result<Report, CommandFault<'a>>
    ensures { result ≡ change_end ReportsRenumbered answer }
{
    match answer {
        Ok(done) => Ok(Report::Renumbered(done)),
        Err(fault) => Err(CommandFault::from(fault)),
    }
}

/// What a widening answered, as the command's end.
fn widening_end<'a>(answer: Result<Widened, ChangeFault>) -> Result<Report, CommandFault<'a>>
    ensures { result ≡ change_end ReportsWidened answer }
{
    match answer {
        Ok(done) => Ok(Report::Widened(done)),
        Err(fault) => Err(CommandFault::from(fault)),
    }
}

/// Writes what a renumbering reports.
pub(crate) fn tell_renumbered<O: Write>(
    form: AnswerForm,
    done: Renumbered,
    out: &mut O,
) -> Result<ProgramEnd, WriteFault>
    ensures { TellsLine (text_in form (renumbered_facts done)) (O.contents out.old) (O.contents out.new)
        (line_end result) }
{
    let fields = [
        Field::Marked("renumbered", true),
        Field::Counted("blocks", u64::from(done.blocks)),
        Field::Counted("next", done.next),
    ];
    tell_fields(form, &fields, out)
}

/// Writes what a widening reports.
pub(crate) fn tell_widened<O: Write>(
    form: AnswerForm,
    done: Widened,
    out: &mut O,
) -> Result<ProgramEnd, WriteFault>
    ensures { TellsLine (text_in form (widened_facts done)) (O.contents out.old) (O.contents out.new)
        (line_end result) }
{
    let fields = [
        Field::Chosen("widened", done.changed, "widened", "already wide"),
        Field::Counted("limit", u64::from(done.limit)),
    ];
    tell_fields(form, &fields, out)
}
