//! `jb completions`: the script by which a shell completes the words of `jb`.
ghost use Rattle.jb_args.specs.Completions.{shell_named};
ghost use Rattle.jb_tool.specs.RunWanted.{EndsOfCompletions, RunsCompletions};

use jb_args::{AnswerForm, OptionName, Shell, completions};
use jb_commands::{CommandFault, ProgramEnd, close};
use jb_text::put;
use std::alloc::Global;
use std::io::Write;

/// Writes the script of the shell of this name, and gives the end of the program; where it ends without the script its
/// line is on `err`.
pub(crate) fn run_completions<O: Write, E: Write>(
    alloc: Global,
    name: &str,
    form: AnswerForm,
    out: &mut O,
    err: &mut E,
) -> ProgramEnd
    ensures runs { RunsCompletions form name.now
        (record { out = O.contents out.old; err = E.contents err.old })
        (record { out = O.contents out.new; err = E.contents err.new }) result }
{
    close(form, complete(alloc, name, out), None, err)
}

/// Writes the script of the shell of this name.
///
/// # Errors
/// `CommandFault::BadOption` where it is none that there is a script for, `CommandFault::Memory` where memory ran out,
/// and then nothing is written; `CommandFault::WriteFault` where `out` took only the beginning.
fn complete<'a, O: Write>(
    alloc: Global,
    name: &str,
    out: &mut O,
) -> Result<ProgramEnd, CommandFault<'a>>
    ensures { EndsOfCompletions (shell_named name.now) (O.contents out.old) (O.contents out.new) result }
{
    let Some(shell) = Shell::named(name) else {
        return Err(CommandFault::BadOption(OptionName::Shell));
    };
    let Ok(script) = completions(alloc, shell) else {
        return Err(CommandFault::Memory);
    };
    match put(out, script.as_bytes()) {
        Ok(()) => Ok(ProgramEnd::with_status(0)),
        Err(_) => Err(CommandFault::WriteFault),
    }
}
