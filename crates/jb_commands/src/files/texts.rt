ghost use Rattle.std.specs.Prelude.{◌≡◌, ◌<◌, ℕ, IfErr, IfOk, None, codes, false};
ghost use Rattle.std.specs.Str.{bytes_eq};
ghost use Rattle.jb_commands.specs.Dump.{IsUnopened};
ghost use Rattle.jb_commands.specs.Texts.{HasNoText, HasNoTextWithin, IsText, IsTextWithin, known_behind};

use crate::fault::CommandFault;
use crate::streams::{TEXT_LIMIT, read_as};
use std::fs::File;
use std::io::{self, ErrorKind, Read};
use std::rt::Files;

/// The text of the file of this name; `-` is standard input.
///
/// # Errors
/// As those of `read_file`.
pub(crate) fn read_text<'a, R: Files + AllocGlobal, I: Read>(
    rt: &R,
    name: &'a str,
    input: &mut I,
) -> Result<Vec<u8>, CommandFault<'a>>
    ensures text { IfOk result (λ text. IsText (known_behind name.entry.now (I.remaining input.old)) text.items) }
    ensures none { IfErr result (HasNoText name.entry.now (known_behind name.entry.now (I.remaining input.old))) }
    ensures unread { bytes_eq name.entry.now (codes "-") ≡ false → input.new ≡ input.old }
{
    if name == "-" {
        read_as(rt.alloc(), input, name, TEXT_LIMIT)
    } else {
        read_file(rt, name)
    }
}

/// The queue text in the file of this name.
///
/// # Errors
/// As those of `read_file_within`, where `limit` is `TEXT_LIMIT`.
pub fn read_file<'a, R: Files + AllocGlobal>(
    rt: &R,
    name: &'a str,
) -> Result<Vec<u8>, CommandFault<'a>>
    ensures text { IfOk result (λ text. IsText None text.items) }
    ensures none { IfErr result (HasNoText name.entry.now None) }
{
    read_file_within(rt, name, TEXT_LIMIT)
}

/// The text of the file of this name, which may have this many bytes.
///
/// # Errors
/// `CommandFault::CannotRead` where the file cannot be opened or read, `CommandFault::TooLong` where it has more
/// bytes than `limit`, `CommandFault::Memory` where memory ran out.
pub(crate) fn read_file_within<'a, R: Files + AllocGlobal>(
    rt: &R,
    name: &'a str,
    limit: usize,
) -> Result<Vec<u8>, CommandFault<'a>>
    requires { limit < 4294967296 }
    ensures text { IfOk result (λ text. IsTextWithin limit None text.items) }
    ensures none { IfErr result (HasNoTextWithin limit name.entry.now None) }
{
    match File::open(rt, name) {
        Ok(mut file) => read_as(rt.alloc(), &mut file, name, limit),
        Err(error) => Err(unopened(name, error)),
    }
}

/// Why the file of this name was not opened.
pub(crate) fn unopened<'a>(name: &'a str, error: io::Error) -> CommandFault<'a>
    ensures unopened { IsUnopened name.entry.now result }
    ensures none { (limit : ℕ) → HasNoTextWithin limit name.entry.now None result }
{
    if error.kind() == ErrorKind::OutOfMemory {
        return CommandFault::Memory;
    }
    CommandFault::CannotRead(name, error.raw_os_error())
}
