//! The words of a line that names its values, in JSON.
ghost use Rattle.std.specs.Prelude.{◌≡◌, ◌++◌, codes};
ghost use Rattle.json.specs.Print.{quoted};
ghost use Rattle.jb_text.specs.Parts.{number_of};
ghost use Rattle.jb_text.specs.Puts.{Puts};
ghost use Rattle.jb_json.specs.Entries.{alone_text, entry_value};
ghost use Rattle.jb_json.specs.Entries.{is_digits as is_said_digits, is_numbers as is_said_numbers};
ghost use Rattle.jb_json.specs.Entries.{number_or_text, numbers_said, named_word, entry_word};

use crate::numbers::put_digits;
use crate::quoted::put_bytes;
use jb_text::{WriteFault, number, part, put};
use std::io::Write;

/// Writes a word of a line of this kind, with a comma before it.
///
/// # Errors
/// `WriteFault` where the writer took only the beginning of the text, as of each function below.
pub(crate) fn put_word<W: Write>(writer: &mut W, kind: &[u8], word: &[u8]) -> Result<(), WriteFault>
    ensures { Puts (W.contents writer.old) (W.contents writer.new) (entry_word kind.now word.now) result }
{
    let (name, value) = part(word, b'=');
    match value {
        [_, value @ ..] => put_pair(writer, kind, name, value),
        [] => put_alone(writer, kind, name),
    }
}

/// Writes a word without a value.
fn put_alone<W: Write>(writer: &mut W, kind: &[u8], word: &[u8]) -> Result<(), WriteFault>
    ensures { Puts (W.contents writer.old) (W.contents writer.new) (alone_text kind.now word.now) result }
{
    if kind == b"uuid".as_slice() {
        put(writer, b",\"uuid\":")?;
        return put_text(writer, word);
    }
    put(writer, b",")?;
    put_text(writer, word)?;
    put(writer, b":true")
}

/// Writes a name and its value.
fn put_pair<W: Write>(
    writer: &mut W,
    kind: &[u8],
    name: &[u8],
    value: &[u8],
) -> Result<(), WriteFault>
    ensures { Puts (W.contents writer.old) (W.contents writer.new)
        (codes "," ++ (quoted name.now ++ (codes ":" ++ entry_value kind.now name.now value.now))) result }
{
    put(writer, b",")?;
    put_text(writer, name)?;
    put(writer, b":")?;
    put_value(writer, kind, name, value)
}

/// Writes the value of this name, in a line of this kind.
fn put_value<W: Write>(
    writer: &mut W,
    kind: &[u8],
    name: &[u8],
    value: &[u8],
) -> Result<(), WriteFault>
    ensures { Puts (W.contents writer.old) (W.contents writer.new)
        (entry_value kind.now name.now value.now) result }
{
    if is_numbers(kind, name) {
        return put_said(writer, value);
    }
    if is_digits(kind, name) {
        return put_text(writer, value);
    }
    match number(value) {
        Some(number) => put_digits(writer, number),
        None => put_text(writer, value),
    }
}

/// Writes a list of numbers, which is `-` where there are none.
fn put_said<W: Write>(writer: &mut W, text: &[u8]) -> Result<(), WriteFault>
    ensures { Puts (W.contents writer.old) (W.contents writer.new) (numbers_said text.now) result }
{
    if text == b"-".as_slice() {
        return put(writer, b"[]");
    }
    put(writer, b"[")?;
    put(writer, text)?;
    put(writer, b"]")
}

/// Whether the value of this name, in a line of this kind, is a list of numbers.
fn is_numbers(kind: &[u8], name: &[u8]) -> bool
    ensures { result ≡ is_said_numbers kind.now name.now }
{
    kind == b"revoke".as_slice() && name == b"homes".as_slice()
}

/// Whether it is digits that stand for bits or bytes, and no number.
fn is_digits(kind: &[u8], name: &[u8]) -> bool
    ensures { result ≡ is_said_digits kind.now name.now }
{
    name == b"compat".as_slice()
        || name == b"incompat".as_slice()
        || name == b"rocompat".as_slice()
        || name == b"checksum".as_slice()
        || kind == b"copy".as_slice() && name == b"head".as_slice()
}

/// Writes a text between quotes.
pub(crate) fn put_text<W: Write>(writer: &mut W, text: &[u8]) -> Result<(), WriteFault>
    ensures { Puts (W.contents writer.old) (W.contents writer.new) (quoted text.now) result }
{
    put(writer, b"\"")?;
    put_bytes(writer, text)?;
    put(writer, b"\"")
}
