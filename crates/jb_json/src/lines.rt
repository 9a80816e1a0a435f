//! The lines of a report.
ghost use Rattle.std.specs.Prelude.{[], ◌∷◌, codes, map};
ghost use Rattle.jb_text.specs.Puts.{Puts};
ghost use Rattle.jb_text.specs.TextParts.{spelled};
ghost use Rattle.jb_json.specs.Facts.{fact_of, facts_of};
ghost use Rattle.jb_json.specs.Reports.{fact_after, fact_lines, facts_line, number_line};

use crate::field::Field;
use itoa::Buffer;
use jb_text::{WriteFault, put, put_parts};
use std::io::Write;

/// Writes the line of the fields.
///
/// # Errors
/// `WriteFault` where the writer took only the beginning of the text, as of each function below.
pub(crate) fn put_line<W: Write>(writer: &mut W, fields: &[Field<'_>]) -> Result<(), WriteFault>
    ensures { Puts (W.contents writer.old) (W.contents writer.new) (facts_line (facts_of fields.now)) result }
{
    let Some((first, rest)) = fields.split_first() else {
        return put(writer, b"\n");
    };
    put_field(writer, "", *first)?;
    put_rest(writer, rest)?;
    put(writer, b"\n")
}

/// Writes fields, each with a space before it.
fn put_rest<W: Write>(writer: &mut W, fields: &[Field<'_>]) -> Result<(), WriteFault>
    ensures { Puts (W.contents writer.old) (W.contents writer.new)
        (spelled (map (λ field. fact_after (codes " ") (fact_of field)) fields.now)) result }
{
    for field in fields {
        match put_field(writer, " ", *field) {
            Ok(()) => {}
            Err(fault) => return Err(fault),
        }
    }
    Ok(())
}

/// Writes a field, with these bytes before it where the line has anything of it.
fn put_field<W: Write>(writer: &mut W, before: &str, field: Field<'_>) -> Result<(), WriteFault>
    ensures { Puts (W.contents writer.old) (W.contents writer.new)
        (fact_after before.now (fact_of field.entry)) result }
{
    let mut digits = Buffer::new();
    match field {
        Field::Counted(name, number) => {
            put_parts(writer, &[before, name, " ", digits.format(number)])
        }
        Field::Bare(_, number) => put_parts(writer, &[before, digits.format(number)]),
        Field::Worded(_, parts) => put_word(writer, before, parts),
        Field::Named(_, Some(word)) => put_parts(writer, &[before, word]),
        Field::Named(_, None) => put(writer, b""),
        Field::Marked(name, true) => put_parts(writer, &[before, name]),
        Field::Marked(_, false) => put(writer, b""),
        Field::Chosen(_, true, word, _) => put_parts(writer, &[before, word]),
        Field::Chosen(_, false, _, other) => put_parts(writer, &[before, other]),
        Field::Listed(_, _, _) => put(writer, b""),
        Field::Sparse(_, _) => put(writer, b""),
    }
}

/// Writes a word in parts, with these bytes before it.
fn put_word<W: Write>(writer: &mut W, before: &str, parts: &[&str]) -> Result<(), WriteFault>
    ensures { Puts (W.contents writer.old) (W.contents writer.new)
        (spelled (before.now ∷ spelled (map (λ part. part.now) parts.now) ∷ [])) result }
{
    match put(writer, before.as_bytes()) {
        Ok(()) => put_parts(writer, parts),
        Err(fault) => Err(fault),
    }
}

/// Writes the lines of those fields that are numbers.
pub(crate) fn put_lists<W: Write>(writer: &mut W, fields: &[Field<'_>]) -> Result<(), WriteFault>
    ensures { Puts (W.contents writer.old) (W.contents writer.new)
        (spelled (map (λ field. fact_lines (fact_of field)) fields.now)) result }
{
    for field in fields {
        match put_list(writer, *field) {
            Ok(()) => {}
            Err(fault) => return Err(fault),
        }
    }
    Ok(())
}

/// Writes the lines of a field, if it is numbers.
fn put_list<W: Write>(writer: &mut W, field: Field<'_>) -> Result<(), WriteFault>
    ensures { Puts (W.contents writer.old) (W.contents writer.new) (fact_lines (fact_of field.entry)) result }
{
    match field {
        Field::Listed(_, each, numbers) => put_number_lines(writer, each, numbers),
        Field::Counted(_, _) => put(writer, b""),
        Field::Bare(_, _) => put(writer, b""),
        Field::Worded(_, _) => put(writer, b""),
        Field::Named(_, _) => put(writer, b""),
        Field::Marked(_, _) => put(writer, b""),
        Field::Chosen(_, _, _, _) => put(writer, b""),
        Field::Sparse(_, _) => put(writer, b""),
    }
}

/// Writes the lines of numbers, each after this word.
fn put_number_lines<W: Write>(writer: &mut W, each: &str, numbers: &[u64]) -> Result<(), WriteFault>
    ensures { Puts (W.contents writer.old) (W.contents writer.new)
        (spelled (map (number_line each.now) numbers.now)) result }
{
    for number in numbers {
        match put_number_line(writer, each, *number) {
            Ok(()) => {}
            Err(fault) => return Err(fault),
        }
    }
    Ok(())
}

/// Writes the line of a number, after this word.
fn put_number_line<W: Write>(writer: &mut W, each: &str, number: u64) -> Result<(), WriteFault>
    ensures { Puts (W.contents writer.old) (W.contents writer.new) (number_line each.now number) result }
{
    let mut digits = Buffer::new();
    put_parts(writer, &[each, " ", digits.format(number), "\n"])
}
