//! Numbers in JSON, of which some are missing.
ghost use Rattle.std.specs.Prelude.{codes, map};
ghost use Rattle.jb_text.specs.Puts.{Puts};
ghost use Rattle.jb_text.specs.TextParts.{spelled};
ghost use Rattle.jb_json.specs.Pieces.{sparse_text, sparse_with};

use itoa::Buffer;
use jb_text::{WriteFault, put, put_parts};
use std::io::Write;

/// Writes an array of numbers, with `null` for one that is missing.
///
/// # Errors
/// `WriteFault` where the writer took only the beginning of the text, as of each function below.
pub(crate) fn put_sparse<W: Write>(
    writer: &mut W,
    numbers: &[Option<u64>],
) -> Result<(), WriteFault>
    ensures { Puts (W.contents writer.old) (W.contents writer.new) (sparse_text numbers.now) result }
{
    let Some((first, rest)) = numbers.split_first() else {
        return put(writer, b"[]");
    };
    put_number(writer, "[", *first)?;
    put_more(writer, rest)?;
    put(writer, b"]")
}

/// Writes such numbers, each with a comma before it.
fn put_more<W: Write>(writer: &mut W, numbers: &[Option<u64>]) -> Result<(), WriteFault>
    ensures { Puts (W.contents writer.old) (W.contents writer.new)
        (spelled (map (sparse_with (codes ",")) numbers.now)) result }
{
    for number in numbers {
        match put_number(writer, ",", *number) {
            Ok(()) => {}
            Err(fault) => return Err(fault),
        }
    }
    Ok(())
}

/// Writes a number, or `null`, with these bytes before it.
fn put_number<W: Write>(writer: &mut W, before: &str, number: Option<u64>) -> Result<(), WriteFault>
    ensures { Puts (W.contents writer.old) (W.contents writer.new) (sparse_with before.now number) result }
{
    let mut digits = Buffer::new();
    match number {
        Some(number) => put_parts(writer, &[before, digits.format(number)]),
        None => put_parts(writer, &[before, "null"]),
    }
}
