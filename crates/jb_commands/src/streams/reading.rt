ghost use Rattle.std.specs.Prelude.{◌<◌, IfErr, IfOk};
ghost use Rattle.jb_commands.specs.Texts.{HasNoTextWithin, IsTextWithin};

use crate::fault::CommandFault;
use jb_text::{ReadFault, read_within};
use std::alloc::Global;
use std::io::Read;

/// The most bytes that a queue text may have.
pub const TEXT_LIMIT: usize = 16_777_216;

/// The most bytes that a certificate may have: nine for each byte of a queue text, so that what `jb plan` writes for
/// any queue text within its limit can be read back.
pub const CERT_LIMIT: usize = 9 * TEXT_LIMIT;

/// The whole of a reader, as the text of this name, which may have this many bytes.
///
/// # Errors
/// `CommandFault::CannotRead` where a read failed, `CommandFault::TooLong` where there are more bytes than `limit`,
/// `CommandFault::Memory` where a growth was refused.
pub(crate) fn read_as<'a, R: Read>(
    alloc: Global,
    reader: &mut R,
    name: &'a str,
    limit: usize,
) -> Result<Vec<u8>, CommandFault<'a>>
    requires { limit < 4294967296 }
    ensures text { IfOk result (λ text. IsTextWithin limit (R.remaining reader.old) text.items) }
    ensures none { IfErr result (HasNoTextWithin limit name.entry.now (R.remaining reader.old)) }
{
    match read_within(alloc, reader, limit) {
        Ok(text) => Ok(text),
        Err(ReadFault::Reader(code)) => Err(CommandFault::CannotRead(name, code)),
        Err(ReadFault::TooLong) => Err(CommandFault::TooLong(name)),
        Err(ReadFault::Memory) => Err(CommandFault::Memory),
    }
}
