//! What a command has to say once its image is closed.
ghost use Rattle.std.specs.Prelude.{◌≡◌};
ghost use Rattle.jb_commands.specs.Reports.{said_end as ends_saying, status_end as ends_so};

use crate::fault::CommandFault;
use crate::program_end::ProgramEnd;
use crate::streams::{
    tell_foreseen, tell_formatted, tell_recovered, tell_renumbered, tell_widened,
};
use jb_args::AnswerForm;
use jb_ext::MapSource;
use jb_format::{Renumbered, Widened};
use jb_recover::{Foreseen, Recovered};
use jb_text::WriteFault;
use std::io::Write;

/// What a command has done, for a line that is written once its image is closed.
#[derive(Drop)]
pub enum Report {
    /// It has written all that it had to say, and ends so.
    Said(ProgramEnd),
    /// A journal was made, with this many log blocks of a transaction at most.
    Formatted(u32),
    /// A journal was recovered; what said where it is, where it was looked for.
    Recovered(Recovered, Option<MapSource>),
    /// A recovery would answer so; whether its home blocks are to be listed too, and the same of its journal.
    Foreseen(Foreseen, bool, Option<MapSource>),
    /// A journal has its first number again.
    Renumbered(Renumbered),
    /// A journal has block numbers of 64 bits.
    Widened(Widened),
}

impl Report {
    ghost use Rattle.jb_commands.specs.Reports.{TellsReport};
    ghost use Rattle.jb_commands.specs.Outputs.{line_end};

    /// Writes its line, or its lines, or the same in JSON, and gives the end of the program.
    ///
    /// # Errors
    /// `CommandFault::WriteFault` where `out` took only the beginning of the text.
    pub fn tell<'a, O: Write>(
        &self,
        form: AnswerForm,
        out: &mut O,
    ) -> Result<ProgramEnd, CommandFault<'a>>
        /// What a command has done, in its line or in JSON: the same facts.
        ensures { TellsReport form self.now (O.contents out.old) (O.contents out.new) result }
    {
        match self.put(form, out) {
            Ok(ended) => Ok(ended),
            Err(_) => Err(CommandFault::WriteFault),
        }
    }

    /// The same as a writer's answer.
    fn put<O: Write>(&self, form: AnswerForm, out: &mut O) -> Result<ProgramEnd, WriteFault>
        ensures { TellsReport form self.now (O.contents out.old) (O.contents out.new) (line_end result) }
    {
        match self {
            Report::Said(ended) => Ok(*ended),
            Report::Formatted(limit) => tell_formatted(form, *limit, out),
            Report::Recovered(done, found) => tell_recovered(form, *done, *found, out),
            Report::Foreseen(told, list, found) => tell_foreseen(form, told, *list, *found, out),
            Report::Renumbered(done) => tell_renumbered(form, *done, out),
            Report::Widened(done) => tell_widened(form, *done, out),
        }
    }
}

/// The end of a command that has written all that it had to say, and ends so.
pub(crate) fn said_end<'a>(
    end: Result<ProgramEnd, CommandFault<'a>>,
) -> Result<Report, CommandFault<'a>>
    ensures { result ≡ ends_saying end.entry }
{
    match end {
        Ok(ended) => Ok(Report::Said(ended)),
        Err(fault) => Err(fault),
    }
}

/// The end of a command that has written all that it had to say, with this status.
pub(crate) fn status_end<'a>(end: Result<u8, CommandFault<'a>>) -> Result<Report, CommandFault<'a>>
    ensures { result ≡ ends_so end.entry }
{
    match end {
        Ok(status) => Ok(Report::Said(ProgramEnd::with_status(status))),
        Err(fault) => Err(fault),
    }
}
