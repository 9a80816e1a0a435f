//! Texts in JSON.
ghost use Rattle.std.specs.Prelude.{◌≡◌, ◌<◌, map};
ghost use Rattle.std.specs.Char.{digit_char};
ghost use Rattle.json.specs.Print.{escape_byte, escape_letter, quoted};
ghost use Rattle.jb_text.specs.Puts.{Puts};
ghost use Rattle.jb_text.specs.TextParts.{spelled};
ghost use Rattle.jb_json.specs.Pieces.{escaped_text};

use arrayvec::ArrayVec;
use jb_text::{WriteFault, put};
use std::io::Write;

/// Writes a text of these parts between quotes.
///
/// # Errors
/// `WriteFault` where the writer took only the beginning of the text, as of each function below.
pub(crate) fn put_quoted<W: Write>(writer: &mut W, parts: &[&str]) -> Result<(), WriteFault>
    ensures { Puts (W.contents writer.old) (W.contents writer.new)
        (quoted (spelled (map (λ part. part.now) parts.now))) result }
{
    put(writer, b"\"")?;
    put_inside(writer, parts)?;
    put(writer, b"\"")
}

/// Writes the parts of a text, as they stand between quotes.
fn put_inside<W: Write>(writer: &mut W, parts: &[&str]) -> Result<(), WriteFault>
    ensures { Puts (W.contents writer.old) (W.contents writer.new)
        (spelled (map (λ part. escaped_text part.now) parts.now)) result }
{
    for part in parts {
        match put_escaped(writer, part) {
            Ok(()) => {}
            Err(fault) => return Err(fault),
        }
    }
    Ok(())
}

/// Writes a text as it stands between quotes.
fn put_escaped<W: Write>(writer: &mut W, text: &str) -> Result<(), WriteFault>
    ensures { Puts (W.contents writer.old) (W.contents writer.new) (escaped_text text.now) result }
{
    put_bytes(writer, text.as_bytes())
}

/// The same of its bytes.
pub(crate) fn put_bytes<W: Write>(writer: &mut W, text: &[u8]) -> Result<(), WriteFault>
    ensures { Puts (W.contents writer.old) (W.contents writer.new) (spelled (map escape_byte text.now)) result }
{
    for byte in text {
        match put_byte(writer, *byte) {
            Ok(()) => {}
            Err(fault) => return Err(fault),
        }
    }
    Ok(())
}

/// The same of a byte.
fn put_byte<W: Write>(writer: &mut W, byte: u8) -> Result<(), WriteFault>
    ensures { Puts (W.contents writer.old) (W.contents writer.new) (escape_byte byte) result }
{
    put(writer, escaped(byte).as_slice())
}

/// A byte as it stands between quotes: escaped, where it is a quote, a backslash or a control character.
fn escaped(byte: u8) -> ArrayVec<u8, 6>
    ensures { result.items ≡ escape_byte byte }
{
    let mut text = ArrayVec::new();
    let letter = letter_of(byte);
    if letter > 0 {
        text.push(b'\\');
        text.push(letter);
        return text;
    }
    if byte < 32 {
        text.push(b'\\');
        text.push(b'u');
        text.push(b'0');
        text.push(b'0');
        text.push(digit_of(byte / 16));
        text.push(digit_of(byte % 16));
        return text;
    }
    text.push(byte);
    text
}

/// The letter of a byte's short escape, or 0 where it has none.
fn letter_of(byte: u8) -> u8
    ensures { result ≡ escape_letter byte }
{
    match byte {
        b'"' | b'\\' => byte,
        8 => b'b',
        12 => b'f',
        b'\n' => b'n',
        b'\r' => b'r',
        b'\t' => b't',
        _ => 0,
    }
}

/// A hexadecimal digit.
fn digit_of(digit: u8) -> u8
    requires { digit < 16 }
    ensures { result ≡ digit_char digit }
{
    if digit < 10 {
        b'0' + digit
    } else {
        b'a' - 10 + digit
    }
}
