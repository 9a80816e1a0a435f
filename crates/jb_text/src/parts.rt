ghost use Rattle.std.specs.Prelude.{◌≡◌, ◌≤◌, ◌↔◌, [], IfSome, IsOk, IsSome, length, map};
ghost use Rattle.jb_text.specs.TextParts.{spelled};
ghost use Rattle.jb_text.specs.Puts.{Puts};

use crate::putting::{WriteFault, put};
use arrayvec::ArrayVec;
use std::io::Write;

/// The most bytes of a text that is gathered: Linux does not mix this many bytes of one write to a pipe with those of
/// another program (PIPE_BUF of pipe(7)).
const GATHERED: usize = 4096;

/// Writes a text that is given in parts, and takes no memory. A text of at most 4096 bytes is written by one call,
/// where the writer takes it whole; a longer one is written part by part. An empty text is not written and never fails.
///
/// # Errors
/// `WriteFault` where the writer took only the beginning of the text.
pub fn put_parts<W: Write>(writer: &mut W, parts: &[&str]) -> Result<(), WriteFault>
    /// A text in parts is written whole, or after a fault its beginning. [But
    /// see](docs/WRONG_BODIES.md#readers-writers-and-files).
    ensures puts { Puts (W.contents writer.old) (W.contents writer.new) (spelled (map (λ part. part.now) parts.now))
        result }
    ensures empty { spelled (map (λ part. part.now) parts.now) ≡ [] → IsOk result }
{
    match gathered(parts) {
        Some(text) => put(writer, text.as_slice()),
        None => put_each(writer, parts),
    }
}

/// The whole text of some parts, or `None` where it has more than 4096 bytes.
fn gathered(parts: &[&str]) -> Option<ArrayVec<u8, GATHERED>>
    ensures fits { IsSome result ↔ (length (spelled (map (λ part. part.now) parts.now)) ≤ 4096) }
    ensures text { IfSome result (λ text. text.items ≡ spelled (map (λ part. part.now) parts.now)) }
{
    let mut text = ArrayVec::new();
    for part in parts {
        match text.try_extend_from_slice(part.as_bytes()) {
            Ok(()) => {}
            Err(_) => return None,
        }
    }
    Some(text)
}

/// Writes a text part by part. Empty parts are not written and never fail.
///
/// # Errors
/// `WriteFault` where the writer took only the beginning of the text.
fn put_each<W: Write>(writer: &mut W, parts: &[&str]) -> Result<(), WriteFault>
    ensures puts { Puts (W.contents writer.old) (W.contents writer.new) (spelled (map (λ part. part.now) parts.now))
        result }
    ensures empty { spelled (map (λ part. part.now) parts.now) ≡ [] → IsOk result }
{
    for part in parts {
        match put(writer, part.as_bytes()) {
            Ok(()) => {}
            Err(fault) => return Err(fault),
        }
    }
    Ok(())
}
