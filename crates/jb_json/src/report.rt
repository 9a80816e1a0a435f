//! Reports as they are written: a line at once, where it is short.
ghost use Rattle.jb_text.specs.Puts.{Puts};
ghost use Rattle.jb_json.specs.Facts.{facts_of};
ghost use Rattle.jb_json.specs.Objects.{json_line};
ghost use Rattle.jb_json.specs.Reports.{facts_line, report_lines};

use crate::field::Field;
use crate::lines::{put_line, put_lists};
use crate::object::put_object;
use arrayvec::ArrayVec;
use jb_text::{WriteFault, put};
use std::io::Write;

/// How many bytes are written at once: as many as Linux does not mix with those of another program (PIPE_BUF).
pub(crate) const GATHERED: usize = 4096;

/// Writes a report as text, and takes no memory: a line of its fields with a space between them, and then a line for
/// each number of those that are numbers. A line of at most 4096 bytes is written by one call, where the writer takes
/// it whole.
///
/// # Errors
/// `WriteFault` where the writer took only the beginning of the text.
pub fn put_report<W: Write>(writer: &mut W, fields: &[Field<'_>]) -> Result<(), WriteFault>
    /// A report is written whole as text, or after a fault its beginning. [But
    /// see](docs/WRONG_BODIES.md#readers-writers-and-files).
    ensures { Puts (W.contents writer.old) (W.contents writer.new) (report_lines (facts_of fields.now)) result }
{
    match put_at_once(writer, fields) {
        Ok(()) => put_lists(writer, fields),
        Err(fault) => Err(fault),
    }
}

/// Writes the line of the fields, by one call where it is short.
fn put_at_once<W: Write>(writer: &mut W, fields: &[Field<'_>]) -> Result<(), WriteFault>
    ensures { Puts (W.contents writer.old) (W.contents writer.new) (facts_line (facts_of fields.now)) result }
{
    let mut text: ArrayVec<u8, GATHERED> = ArrayVec::new();
    match put_line(&mut text, fields) {
        Ok(()) => put(writer, text.as_slice()),
        Err(_) => put_line(writer, fields),
    }
}

/// Writes the same report in JSON, and takes no memory: an object with a member for each field, in their order, and an
/// LF. A text of at most 4096 bytes is written by one call, where the writer takes it whole.
///
/// # Errors
/// `WriteFault` where the writer took only the beginning of the text.
pub fn put_json<W: Write>(writer: &mut W, fields: &[Field<'_>]) -> Result<(), WriteFault>
    /// A report is written whole in JSON, or after a fault its beginning. [But
    /// see](docs/WRONG_BODIES.md#readers-writers-and-files).
    ensures { Puts (W.contents writer.old) (W.contents writer.new) (json_line (facts_of fields.now)) result }
{
    let mut text: ArrayVec<u8, GATHERED> = ArrayVec::new();
    match put_object(&mut text, fields) {
        Ok(()) => put(writer, text.as_slice()),
        Err(_) => put_object(writer, fields),
    }
}
