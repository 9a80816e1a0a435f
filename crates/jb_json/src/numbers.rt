//! Numbers in JSON.
ghost use Rattle.std.specs.Prelude.{codes, decimal, map};
ghost use Rattle.jb_text.specs.Puts.{Puts};
ghost use Rattle.jb_text.specs.TextParts.{spelled};
ghost use Rattle.jb_json.specs.Pieces.{number_with, numbers_text};

use itoa::Buffer;
use jb_text::{WriteFault, put, put_parts};
use std::io::Write;

/// Writes an array of numbers.
///
/// # Errors
/// `WriteFault` where the writer took only the beginning of the text, as of each function below.
pub(crate) fn put_numbers<W: Write>(writer: &mut W, numbers: &[u64]) -> Result<(), WriteFault>
    ensures { Puts (W.contents writer.old) (W.contents writer.new) (numbers_text numbers.now) result }
{
    let Some((first, rest)) = numbers.split_first() else {
        return put(writer, b"[]");
    };
    put_number(writer, "[", *first)?;
    put_more(writer, rest)?;
    put(writer, b"]")
}

/// Writes numbers, each with a comma before it.
fn put_more<W: Write>(writer: &mut W, numbers: &[u64]) -> Result<(), WriteFault>
    ensures { Puts (W.contents writer.old) (W.contents writer.new)
        (spelled (map (number_with (codes ",")) numbers.now)) result }
{
    for number in numbers {
        match put_number(writer, ",", *number) {
            Ok(()) => {}
            Err(fault) => return Err(fault),
        }
    }
    Ok(())
}

/// Writes a number with these bytes before it.
fn put_number<W: Write>(writer: &mut W, before: &str, number: u64) -> Result<(), WriteFault>
    ensures { Puts (W.contents writer.old) (W.contents writer.new) (number_with before.now number) result }
{
    let mut digits = Buffer::new();
    put_parts(writer, &[before, digits.format(number)])
}

/// Writes a number alone.
pub(crate) fn put_digits<W: Write>(writer: &mut W, number: u64) -> Result<(), WriteFault>
    ensures { Puts (W.contents writer.old) (W.contents writer.new) (decimal number) result }
{
    let mut digits = Buffer::new();
    put(writer, digits.format(number).as_bytes())
}
