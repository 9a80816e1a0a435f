ghost use Rattle.std.specs.Prelude.{◌≡◌, [], IsOk};
ghost use Rattle.jb_text.specs.Puts.{Puts};

use std::io::Write;
use thiserror::Error;

/// A text could not be written whole: a write or the flush failed, or a write took nothing.
#[derive(Clone, Copy, Debug, PartialEq, Eq, Error)]
#[error("the text was not written whole; write it again to another place")]
pub struct WriteFault;

/// Writes the whole text and flushes. No write is tried again, and an empty text is not written and never fails.
///
/// # Errors
/// `WriteFault` where the writer took only the beginning of the text.
pub fn put<W: Write>(writer: &mut W, text: &[u8]) -> Result<(), WriteFault>
    /// A text is written whole, or after a fault its beginning. [But
    /// see](docs/WRONG_BODIES.md#readers-writers-and-files).
    ensures puts { Puts (W.contents writer.old) (W.contents writer.new) text.now result }
    ensures empty { text.now ≡ [] → IsOk result }
{
    if text.is_empty() {
        return Ok(());
    }
    let mut done = 0;
    while done < text.len() {
        match writer.write(&text[done..]) {
            Ok(0) => return Err(WriteFault),
            Ok(n) => done += n,
            Err(_) => return Err(WriteFault),
        }
    }
    match writer.flush() {
        Ok(()) => Ok(()),
        Err(_) => Err(WriteFault),
    }
}
