use crate::fault::CommandFault;
use jb_args::{Hint, Statuses};

/// How a run of the program ended.
#[derive(Clone, Copy)]
pub struct ProgramEnd {
    /// The exit status, 0, 1 or 2.
    pub status: u8,
    /// What a second line is about: the first line on standard error, where the table has a row for it.
    pub hint: Option<Hint>,
}

impl ProgramEnd {
    ghost use Rattle.std.specs.Prelude.{◌≡◌};
    ghost use Rattle.jb_commands.specs.Ends.{exit_status, of_fault, with_status};

    /// An end with this status and no second line.
    pub fn with_status(status: u8) -> ProgramEnd
        ensures { result ≡ with_status status }
    {
        ProgramEnd { status, hint: None }
    }

    /// The end of a command that ended without an answer, for this.
    pub fn of_fault(fault: CommandFault<'_>) -> ProgramEnd
        ensures { result ≡ of_fault fault.entry }
    {
        ProgramEnd {
            status: fault.status(),
            hint: Some(fault.hint()),
        }
    }

    /// The exit status of the program, which has a finer one in place of 1 where that is asked for: 3 where a journal,
    /// an image or what is to be done is refused, 4 where a read or a write failed, 5 where memory ran out. It stays 1
    /// where what is judged does not fit, or is not accepted.
    pub fn exit_status(self, statuses: Statuses) -> u8
        /// The table's status of the line on standard error, in place of 1, where it is asked for.
        ensures { result ≡ exit_status statuses self }
    {
        match (statuses, self.status, self.hint) {
            (Statuses::Finer, 1, Some(hint)) => hint.finer_status(),
            _ => self.status,
        }
    }
}
