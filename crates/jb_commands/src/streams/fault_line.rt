//! The line of each `CommandFault`, and the same in JSON.
ghost use Rattle.std.specs.Prelude.{◌≡◌, map, option_map};
ghost use Rattle.jb_text.specs.Puts.{Puts, PutsPart};
ghost use Rattle.jb_text.specs.TextParts.{spelled};
ghost use Rattle.jb_args.specs.Advice.{reason_spelled};
ghost use Rattle.jb_json.specs.Objects.{json_line};
ghost use Rattle.jb_commands.specs.FaultLines.{parts_of};
ghost use Rattle.jb_commands.specs.FaultReports.{facts_with, told_facts};
ghost use Rattle.jb_commands.specs.Faults.{sum_words};
ghost use Rattle.jb_commands.specs.Lines.{line_naming};

use crate::fault::CommandFault;
use crate::fault_table::{name_after, words_of};
use crate::names::TwoFiles;
use crate::streams::putting::put_line;
use arrayvec::ArrayVec;
use itoa::Buffer;
use jb_args::{ReasonParts, SYSTEM_TEXT, hint_parts};
use jb_json::{Field, put_json};
use jb_scan::Summed;
use jb_text::WriteFault;
use std::io::Write;

/// The numbers of a fault, which are after its name.
#[derive(Clone, Copy)]
pub(crate) enum Numbers {
    None,
    One(u64),
    Two(u64, u64),
}

impl<'a> CommandFault<'a> {
    ghost use Rattle.jb_text.specs.Puts.{PutsPart};
    ghost use Rattle.jb_args.specs.Advice.{SystemSaid};
    ghost use Rattle.jb_json.specs.Objects.{json_line};
    ghost use Rattle.jb_commands.specs.FaultReports.{fault_facts};
    ghost use Rattle.jb_commands.specs.Faults.{line_of};
    ghost use Rattle.jb_commands.specs.Lines.{names_said};

    /// Writes the line that says why, without taking memory; a fault of the writer is ignored. Of a command over two
    /// files it ends with the name of the one that it is about, where that is known. A control character of a name is
    /// written as `\x` and two hexadecimal digits for each of its bytes.
    pub fn tell<E: Write>(self, files: Option<TwoFiles<'_>>, err: &mut E)
        /// The line of each fault. Of a command over two files it ends with the name of the one that it is about; the
        /// control characters of a name are escaped.
        ensures { PutsPart (E.contents err.old) (E.contents err.new) (line_of (names_said files.entry) self.entry) }
    {
        let (words, numbers) = words_of(self);
        put_numbers(err, words, numbers, name_after(self, files));
    }

    /// Writes the same as a JSON object, without taking memory, with what to do in it; a fault of the writer is
    /// ignored. The name of the file is in it as it is.
    pub fn tell_json<E: Write>(self, files: Option<TwoFiles<'_>>, err: &mut E)
        /// The JSON of each fault: the name, the numbers and the file of its line, and what its second line says.
        ensures { (said : SystemSaid) × PutsPart (E.contents err.old) (E.contents err.new)
            (json_line (fault_facts (names_said files.entry) said self.entry)) }
    {
        let (words, numbers) = words_of(self);
        let mut text: ArrayVec<u8, SYSTEM_TEXT> = ArrayVec::new();
        let mut digits = Buffer::new();
        let hint = hint_parts(self.hint(), &mut text, &mut digits);
        let name = name_after(self, files);
        let _ignored = put_fault(err, words, numbers, name, &hint.advice, hint.reason);
    }
}

/// The name of the fault of a block with a wrong checksum.
pub(crate) fn words_of_sum(what: Summed) -> &'static str
    ensures { result.now ≡ sum_words what }
{
    match what {
        Summed::Descriptor => "BadChecksum descriptor",
        Summed::Revoke => "BadChecksum revoke",
        Summed::Commit => "BadChecksum commit",
        Summed::Data => "BadChecksum data",
    }
}

/// Writes a line of words and numbers, with the name of a file after them where there is one.
fn put_numbers<W: Write>(writer: &mut W, words: &str, numbers: Numbers, name: Option<&str>)
    ensures puts { PutsPart (W.contents writer.old) (W.contents writer.new)
        (line_naming (parts_of words.now numbers) (option_map (λ name. name.now) name.entry)) }
{
    let mut first = Buffer::new();
    let mut second = Buffer::new();
    match numbers {
        Numbers::None => put_line(writer, &["jb: ", words], name),
        Numbers::One(number) => {
            put_line(writer, &["jb: ", words, " ", first.format(number)], name);
        }
        Numbers::Two(one, two) => {
            let one = first.format(one);
            put_line(
                writer,
                &["jb: ", words, " ", one, " ", second.format(two)],
                name,
            );
        }
    }
}

/// Writes the JSON of a fault with this name, these numbers, this file, this advice, and the system's reason where
/// there is one.
///
/// # Errors
/// `WriteFault` where the writer took only the beginning of it.
fn put_fault<W: Write>(
    writer: &mut W,
    words: &str,
    numbers: Numbers,
    file: Option<&str>,
    hint: &[&str],
    system: Option<ReasonParts<'_>>,
) -> Result<(), WriteFault>
    ensures puts { Puts (W.contents writer.old) (W.contents writer.new)
        (json_line (told_facts words.now numbers (option_map (λ name. name.now) file.entry)
        (spelled (map (λ part. part.now) hint.now)) (option_map reason_spelled system.entry))) result }
{
    let mut first = Buffer::new();
    let mut second = Buffer::new();
    match numbers {
        Numbers::None => put_told(writer, words, &[], &[words], file, hint, system),
        Numbers::One(number) => {
            let reason = [words, " ", first.format(number)];
            put_told(writer, words, &[number], &reason, file, hint, system)
        }
        Numbers::Two(one, two) => {
            let reason = [words, " ", first.format(one), " ", second.format(two)];
            put_told(writer, words, &[one, two], &reason, file, hint, system)
        }
    }
}

/// Writes the JSON of a fault with its numbers as they are, with what is said of it, what to do, and the system's
/// reason where there is one.
///
/// # Errors
/// `WriteFault` where the writer took only the beginning of it.
pub(crate) fn put_told<'b, W: Write>(
    writer: &mut W,
    words: &'b str,
    numbers: &'b [u64],
    reason: &'b [&'b str],
    file: Option<&'b str>,
    hint: &'b [&'b str],
    system: Option<ReasonParts<'b>>,
) -> Result<(), WriteFault>
    ensures puts { Puts (W.contents writer.old) (W.contents writer.new)
        (json_line (facts_with words.now numbers.now (spelled (map (λ part. part.now) reason.now))
        (option_map (λ name. name.now) file.entry) (spelled (map (λ part. part.now) hint.now))
        (option_map reason_spelled system.entry))) result }
{
    let name = Field::Named("fault", Some(words));
    let numbers = Field::Listed("numbers", "", numbers);
    let file = Field::Named("file", file);
    let reason = Field::Worded("reason", reason);
    let hint = Field::Worded("hint", hint);
    match system {
        None => put_json(writer, &[name, numbers, file, reason, hint]),
        Some(parts) => {
            let said = [parts.call, parts.place, parts.between, parts.text];
            let system = Field::Worded("system", &said);
            put_json(writer, &[name, numbers, file, reason, hint, system])
        }
    }
}
