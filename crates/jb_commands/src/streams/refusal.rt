ghost use Rattle.std.specs.Prelude.{◌≡◌, ◌≢◌, None};
ghost use Rattle.jb_text.specs.Puts.{PutsPart};
ghost use Rattle.jb_commands.specs.Ends.{of_fault, with_status};
ghost use Rattle.jb_commands.specs.Faults.{line_of, not_utf8};
ghost use Rattle.jb_commands.specs.declared.fault.CommandFault.TheVariants.{Memory};

use crate::fault::CommandFault;
use crate::program_end::ProgramEnd;
use crate::streams::putting::put_line;
use std::io::{ErrorKind, Write};

/// Answers words that the system could not hand over: a word that is not UTF-8, or out of memory. Gives the end of the
/// program.
pub fn refuse_words<E: Write>(kind: ErrorKind, err: &mut E) -> ProgramEnd
    ensures text { kind ≡ ErrorKind.InvalidData → (result ≡ with_status 2)
        × PutsPart (E.contents err.old) (E.contents err.new) not_utf8 }
    ensures memory { kind ≢ ErrorKind.InvalidData → (result ≡ of_fault Memory)
        × PutsPart (E.contents err.old) (E.contents err.new) (line_of None Memory) }
{
    if kind == ErrorKind::InvalidData {
        put_line(
            err,
            &["error: invalid UTF-8 was detected in one or more arguments"],
            None,
        );
        return ProgramEnd::with_status(2);
    }
    CommandFault::Memory.tell(None, err);
    ProgramEnd::of_fault(CommandFault::Memory)
}
