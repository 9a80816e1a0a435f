//! The JSON object of a report.
ghost use Rattle.std.specs.Prelude.{codes, map, option_map};
ghost use Rattle.jb_text.specs.Puts.{Puts};
ghost use Rattle.jb_text.specs.TextParts.{spelled};
ghost use Rattle.jb_json.specs.Facts.{fact_of, facts_of};
ghost use Rattle.jb_json.specs.Objects.{json_line};
ghost use Rattle.jb_json.specs.Pieces.{member_after, members_text, named_text, truth_text, value_text};

use crate::field::Field;
use crate::numbers::{put_digits, put_numbers};
use crate::quoted::put_quoted;
use crate::sparse::put_sparse;
use jb_text::{WriteFault, put};
use std::io::Write;

/// Writes the object of a report, and an LF.
///
/// # Errors
/// `WriteFault` where the writer took only the beginning of the text, as of each function below.
pub(crate) fn put_object<W: Write>(writer: &mut W, fields: &[Field<'_>]) -> Result<(), WriteFault>
    ensures { Puts (W.contents writer.old) (W.contents writer.new) (json_line (facts_of fields.now)) result }
{
    match put_members(writer, fields) {
        Ok(()) => put(writer, b"}\n"),
        Err(fault) => Err(fault),
    }
}

/// Writes the object without its closing brace.
fn put_members<W: Write>(writer: &mut W, fields: &[Field<'_>]) -> Result<(), WriteFault>
    ensures { Puts (W.contents writer.old) (W.contents writer.new) (members_text (facts_of fields.now)) result }
{
    let Some((first, rest)) = fields.split_first() else {
        return put(writer, b"{");
    };
    match put_member(writer, "{", *first) {
        Ok(()) => put_more(writer, rest),
        Err(fault) => Err(fault),
    }
}

/// Writes members, each with a comma before it.
fn put_more<W: Write>(writer: &mut W, fields: &[Field<'_>]) -> Result<(), WriteFault>
    ensures { Puts (W.contents writer.old) (W.contents writer.new)
        (spelled (map (λ field. member_after (codes ",") (fact_of field)) fields.now)) result }
{
    for field in fields {
        match put_member(writer, ",", *field) {
            Ok(()) => {}
            Err(fault) => return Err(fault),
        }
    }
    Ok(())
}

/// Writes a member with these bytes before it.
fn put_member<W: Write>(writer: &mut W, before: &str, field: Field<'_>) -> Result<(), WriteFault>
    ensures { Puts (W.contents writer.old) (W.contents writer.new)
        (member_after before.now (fact_of field.entry)) result }
{
    put(writer, before.as_bytes())?;
    put_quoted(writer, &[field.name()])?;
    put(writer, b":")?;
    put_value(writer, field)
}

/// Writes a field's value.
fn put_value<W: Write>(writer: &mut W, field: Field<'_>) -> Result<(), WriteFault>
    ensures { Puts (W.contents writer.old) (W.contents writer.new) (value_text (fact_of field.entry)) result }
{
    match field {
        Field::Counted(_, number) => put_digits(writer, number),
        Field::Bare(_, number) => put_digits(writer, number),
        Field::Worded(_, parts) => put_quoted(writer, parts),
        Field::Named(_, word) => put_named(writer, word),
        Field::Marked(_, holds) => put_truth(writer, holds),
        Field::Chosen(_, holds, _, _) => put_truth(writer, holds),
        Field::Listed(_, _, numbers) => put_numbers(writer, numbers),
        Field::Sparse(_, numbers) => put_sparse(writer, numbers),
    }
}

/// Writes a text where there is one, and else `null`.
fn put_named<W: Write>(writer: &mut W, word: Option<&str>) -> Result<(), WriteFault>
    ensures { Puts (W.contents writer.old) (W.contents writer.new)
        (named_text (option_map (λ word. word.now) word.entry)) result }
{
    match word {
        Some(word) => put_quoted(writer, &[word]),
        None => put(writer, b"null"),
    }
}

/// Writes a truth value.
fn put_truth<W: Write>(writer: &mut W, holds: bool) -> Result<(), WriteFault>
    ensures { Puts (W.contents writer.old) (W.contents writer.new) (truth_text holds) result }
{
    if holds {
        put(writer, b"true")
    } else {
        put(writer, b"false")
    }
}
