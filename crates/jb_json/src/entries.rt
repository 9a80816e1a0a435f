//! Lines that name their values, as those of a dump do, each as a JSON object.
ghost use Rattle.std.specs.Prelude.{codes, map};
ghost use Rattle.std.specs.Option.{option_copied};
ghost use Rattle.jb_text.specs.Parts.{number_of, words_in};
ghost use Rattle.jb_text.specs.Puts.{Puts};
ghost use Rattle.jb_text.specs.TextParts.{spelled};
ghost use Rattle.jb_json.specs.Entries.{entries_text, entry_text, first_text, kind_text, numbered_text, entry_word};

use crate::entry_words::{put_text, put_word};
use crate::report::GATHERED;
use arrayvec::ArrayVec;
use itoa::Buffer;
use jb_text::{WriteFault, next_line, next_word, number, put, put_parts};
use std::io::Write;

/// Writes each line of a text as an object on a line of its own, and takes no memory. A line is the number of a block,
/// which may be missing, a kind, and words, each a name and a value with `=` between them, or alone. An object of at
/// most 4096 bytes is written by one call, where the writer takes it whole.
///
/// # Errors
/// `WriteFault` where the writer took only the beginning of the text.
pub fn put_entries<W: Write>(writer: &mut W, text: &[u8]) -> Result<(), WriteFault>
    /// The lines of a text are written whole as objects, or after a fault their beginning. [But
    /// see](docs/WRONG_BODIES.md#readers-writers-and-files).
    ensures { Puts (W.contents writer.old) (W.contents writer.new) (entries_text text.now) result }
{
    let mut rest = text;
    while let Some((line, behind)) = next_line(rest) {
        match put_at_once(writer, line) {
            Ok(()) => {}
            Err(fault) => return Err(fault),
        }
        rest = behind;
    }
    Ok(())
}

/// Writes a line as an object, by one call where that is short.
fn put_at_once<W: Write>(writer: &mut W, line: &[u8]) -> Result<(), WriteFault>
    ensures { Puts (W.contents writer.old) (W.contents writer.new) (entry_text line.now) result }
{
    let mut text: ArrayVec<u8, GATHERED> = ArrayVec::new();
    match put_entry(&mut text, line) {
        Ok(()) => put(writer, text.as_slice()),
        Err(_) => put_entry(writer, line),
    }
}

/// Writes a line as an object.
fn put_entry<W: Write>(writer: &mut W, line: &[u8]) -> Result<(), WriteFault>
    ensures { Puts (W.contents writer.old) (W.contents writer.new) (entry_text line.now) result }
{
    let (first, rest) = next_word(line);
    match number(first) {
        Some(block) => put_numbered(writer, block, rest),
        None => put_kind(writer, "{", first, rest),
    }
}

/// Writes the number of a block, and the words after it.
fn put_numbered<W: Write>(writer: &mut W, block: u64, rest: Option<&[u8]>) -> Result<(), WriteFault>
    ensures { Puts (W.contents writer.old) (W.contents writer.new)
        (numbered_text block (words_in (option_copied rest.entry))) result }
{
    let mut digits = Buffer::new();
    let Some(text) = rest else {
        return put_parts(writer, &["{\"block\":", digits.format(block), "}\n"]);
    };
    let (kind, rest) = next_word(text);
    match put_parts(writer, &["{\"block\":", digits.format(block)]) {
        Ok(()) => put_kind(writer, ",", kind, rest),
        Err(fault) => Err(fault),
    }
}

/// Writes the kind of a line, with these bytes before it, and the words after it.
fn put_kind<W: Write>(
    writer: &mut W,
    front: &str,
    kind: &[u8],
    rest: Option<&[u8]>,
) -> Result<(), WriteFault>
    ensures { Puts (W.contents writer.old) (W.contents writer.new)
        (kind_text front.now kind.now (words_in (option_copied rest.entry))) result }
{
    put_parts(writer, &[front, "\"kind\":"])?;
    put_text(writer, kind)?;
    put_words(writer, kind, rest)?;
    put(writer, b"}\n")
}

/// Writes the words of a line of this kind.
fn put_words<W: Write>(writer: &mut W, kind: &[u8], rest: Option<&[u8]>) -> Result<(), WriteFault>
    ensures { Puts (W.contents writer.old) (W.contents writer.new)
        (spelled (map (entry_word kind.now) (words_in (option_copied rest.entry)))) result }
{
    let mut rest = rest;
    while let Some(text) = rest {
        let (word, behind) = next_word(text);
        match put_word(writer, kind, word) {
            Ok(()) => {}
            Err(fault) => return Err(fault),
        }
        rest = behind;
    }
    Ok(())
}
