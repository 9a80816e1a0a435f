ghost use Rattle.std.specs.Prelude.{IfErr, IfOk};
ghost use Rattle.jb_text.specs.Puts.{Puts};
ghost use Rattle.jb_json.specs.Facts.{facts_of};
ghost use Rattle.jb_commands.specs.AnswerForms.{text_in};
ghost use Rattle.jb_commands.specs.AnswerSaid.{said};
ghost use Rattle.jb_commands.specs.Outputs.{Tells, TellsLine, TellsNone, line_end};

use crate::CommandOutput;
use crate::fault::CommandFault;
use crate::program_end::ProgramEnd;
use jb_args::AnswerForm;
use jb_block::Memory;
use jb_json::{Field, put_json, put_report};
use jb_text::{WriteFault, put};
use std::io::Write;

/// Writes an answer and gives its end. A fault of standard error is ignored.
///
/// # Errors
/// `CommandFault::WriteFault` where standard output took only the beginning of its text, and never where there is
/// none for it.
pub fn tell<'a, O: Write, E: Write>(
    answer: &CommandOutput,
    out: &mut O,
    err: &mut E,
) -> Result<ProgramEnd, CommandFault<'a>>
    ensures { Tells (said answer.now) (record { out = O.contents out.old; err = E.contents err.old })
        (record { out = O.contents out.new; err = E.contents err.new }) result }
{
    match put(out, answer.out.as_slice()) {
        Ok(()) => {
            let _ignored = put(err, answer.err.as_slice());
            Ok(ProgramEnd {
                status: answer.status,
                hint: answer.hint,
            })
        }
        Err(_) => Err(CommandFault::WriteFault),
    }
}

/// Writes an answer and gives its end, where there was memory for one.
///
/// # Errors
/// `CommandFault::Memory` where there was none, and those of `tell`.
pub(crate) fn told<'a, O: Write, E: Write>(
    answer: Result<CommandOutput, Memory>,
    out: &mut O,
    err: &mut E,
) -> Result<ProgramEnd, CommandFault<'a>>
    ensures tells { IfOk answer (λ answer. Tells (said answer)
        (record { out = O.contents out.old; err = E.contents err.old })
        (record { out = O.contents out.new; err = E.contents err.new }) result) }
    ensures none { IfErr answer (λ _. TellsNone
        (record { out = O.contents out.old; err = E.contents err.old })
        (record { out = O.contents out.new; err = E.contents err.new }) result) }
{
    match answer {
        Ok(answer) => tell(&answer, out, err),
        Err(_) => Err(CommandFault::Memory),
    }
}

/// Writes what a command reports that has done its work, in this form and without memory, and gives status 0.
///
/// # Errors
/// `WriteFault` where the writer took only the beginning of the text.
pub(crate) fn tell_fields<O: Write>(
    form: AnswerForm,
    fields: &[Field<'_>],
    out: &mut O,
) -> Result<ProgramEnd, WriteFault>
    ensures { TellsLine (text_in form (facts_of fields.now)) (O.contents out.old) (O.contents out.new)
        (line_end result) }
{
    match put_fields(form, fields, out) {
        Ok(()) => Ok(ProgramEnd::with_status(0)),
        Err(fault) => Err(fault),
    }
}

/// Writes a report in this form.
///
/// # Errors
/// `WriteFault` where the writer took only the beginning of the text.
pub(crate) fn put_fields<O: Write>(
    form: AnswerForm,
    fields: &[Field<'_>],
    out: &mut O,
) -> Result<(), WriteFault>
    ensures { Puts (O.contents out.old) (O.contents out.new) (text_in form (facts_of fields.now)) result }
{
    match form {
        AnswerForm::Text => put_report(out, fields),
        AnswerForm::Json => put_json(out, fields),
    }
}
