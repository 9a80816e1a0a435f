ghost use Rattle.std.specs.Prelude.{◌≡◌, ◌++◌, codes, map};
ghost use Rattle.jb_text.specs.Puts.{Puts};
ghost use Rattle.jb_text.specs.TextParts.{spelled};
ghost use Rattle.jb_commands.specs.TextFaults.{text_fault_text};

use crate::streams::{put_fields, put_told};
use jb_args::{AnswerForm, Hint};
use jb_block::Memory;
use jb_json::Field;
use jb_text::{WriteFault, put, put_parts};
use std::alloc::Global;
use std::io::Write;

/// What a command answers: its exit status and all that it writes.
#[derive(Drop)]
pub struct CommandOutput {
    /// The program's exit status.
    pub status: u8,
    /// The text for standard output.
    pub out: Vec<u8>,
    /// The text for standard error.
    pub err: Vec<u8>,
    /// What a second line is about, where there is a text for standard error.
    pub hint: Option<Hint>,
}

/// A fault of a text: its name, its numbers and what is said of it, in parts, and what to do.
#[derive(Clone, Copy)]
pub(crate) struct TextFault<'a> {
    /// The name of the fault.
    pub(crate) name: &'a str,
    /// The numbers of the fault.
    pub(crate) numbers: &'a [u64],
    /// What is said of it.
    pub(crate) reason: &'a [&'a str],
    /// What a second line is about.
    pub(crate) hint: Hint,
}

impl CommandOutput {
    ghost use Rattle.std.specs.Prelude.{◌≡◌, [], IfOk, None, map};
    ghost use Rattle.jb_text.specs.TextParts.{spelled};
    ghost use Rattle.jb_json.specs.Facts.{facts_of};
    ghost use Rattle.jb_commands.specs.AnswerForms.{text_in};
    ghost use Rattle.jb_commands.specs.AnswerSaid.{said};
    ghost use Rattle.jb_commands.specs.TextFaults.{text_fault};

    /// The answer with this status and a report of these fields for standard output, in this form.
    ///
    /// # Errors
    /// `Memory` where memory ran out.
    pub(crate) fn told(
        alloc: Global,
        form: AnswerForm,
        status: u8,
        fields: &[Field<'_>],
    ) -> Result<CommandOutput, Memory>
        ensures { IfOk result (λ answer. said answer
            ≡ record { status = status; out = text_in form (facts_of fields.now); err = []; hint = None }) }
    {
        let mut out = Vec::new(alloc);
        match put_fields(form, fields, &mut out) {
            Ok(()) => Ok(CommandOutput {
                status,
                out,
                err: Vec::new(alloc),
                hint: None,
            }),
            Err(_) => Err(Memory),
        }
    }

    /// The answer with status 2 and a fault of a text for standard error, in this form.
    ///
    /// # Errors
    /// `Memory` where memory ran out.
    pub(crate) fn fault(
        alloc: Global,
        form: AnswerForm,
        fault: TextFault<'_>,
    ) -> Result<CommandOutput, Memory>
        ensures { IfOk result (λ answer. said answer ≡ text_fault form fault.entry.name.now
            fault.entry.numbers.now (map (λ part. part.now) fault.entry.reason.now) fault.entry.hint) }
    {
        let mut err = Vec::new(alloc);
        match put_text_fault(form, fault, &mut err) {
            Ok(()) => Ok(CommandOutput {
                status: 2,
                out: Vec::new(alloc),
                err,
                hint: Some(fault.hint),
            }),
            Err(_) => Err(Memory),
        }
    }
}

/// Writes a fault of a text, in this form.
///
/// # Errors
/// `WriteFault` where the writer took only the beginning of it.
fn put_text_fault<W: Write>(
    form: AnswerForm,
    fault: TextFault<'_>,
    writer: &mut W,
) -> Result<(), WriteFault>
    ensures { Puts (W.contents writer.old) (W.contents writer.new) (text_fault_text form fault.entry.name.now
        fault.entry.numbers.now (map (λ part. part.now) fault.entry.reason.now) fault.entry.hint) result }
{
    match form {
        AnswerForm::Text => put_reason(fault.reason, writer),
        AnswerForm::Json => {
            let hint = [fault.hint.advice()];
            put_told(
                writer,
                fault.name,
                fault.numbers,
                fault.reason,
                None,
                &hint,
                None,
            )
        }
    }
}

/// Writes the line of what is said of a fault.
fn put_reason<W: Write>(reason: &[&str], writer: &mut W) -> Result<(), WriteFault>
    ensures { Puts (W.contents writer.old) (W.contents writer.new)
        (codes "jb: " ++ (spelled (map (λ part. part.now) reason.now) ++ codes "\n")) result }
{
    put(writer, b"jb: ")?;
    put_parts(writer, reason)?;
    put(writer, b"\n")
}
