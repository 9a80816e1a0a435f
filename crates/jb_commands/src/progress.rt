//! How far a long command has come, on a terminal: one line, which is written anew and erased at the end. It has a
//! stream of its own: standard error is given what the clauses of a command say, and nothing else.

mod advance;
mod line;
mod pass;
mod peeked_homes;

use crate::progress::advance::Advance;
use crate::progress::line::TerminalLine;
use crate::progress::pass::Pass;
use crate::progress::peeked_homes::PeekedHomes;
use jb_args::ProgressLine;
pub(crate) use pass::PassCounts;
use std::fs::{File, OpenOptions};
use std::io::IsTerminal;
use std::rt::Files;
use std::time::Clock;

/// Standard error and standard output, by the names with which they are opened once more.
const ERROR: &str = "/dev/stderr";

const OUTPUT: &str = "/dev/stdout";

/// What a command goes over.
#[derive(Clone, Copy)]
pub(crate) enum Course {
    /// The log of a journal, once or several times.
    Log(Pass),
    /// Home blocks, each by a peek.
    Peeks(PeekedHomes),
    /// A text of bytes, once.
    Bytes(Advance),
}

/// How far a command has come, where that is shown.
#[derive(Drop)]
pub(crate) struct ShownProgress<'a, K: Clock> {
    clock: &'a K,
    line: Option<TerminalLine>,
}

impl<'a, K: Clock> ShownProgress<'a, K> {
    /// Of a command over the log of a journal of this many blocks, as often as this, which has done nothing yet.
    /// Nothing is shown where standard error is no terminal.
    pub(crate) fn over_log<R: Files<File = File>>(
        rt: &R,
        clock: &'a K,
        shown: ProgressLine,
        what: &'static str,
        journal: u64,
        passes: PassCounts,
    ) -> ShownProgress<'a, K> {
        ShownProgress::new(
            rt,
            clock,
            shown,
            what,
            Course::Log(Pass::new(journal, passes)),
        )
    }

    /// Of a command that peeks at this many home blocks, one after the other, and writes them. Nothing is shown where
    /// standard error is no terminal, or standard output is one.
    pub(crate) fn over_homes<R: Files<File = File>>(
        rt: &R,
        clock: &'a K,
        shown: ProgressLine,
        what: &'static str,
        homes: u64,
    ) -> ShownProgress<'a, K> {
        let shown = beside_text(rt, shown);
        ShownProgress::new(
            rt,
            clock,
            shown,
            what,
            Course::Peeks(PeekedHomes::new(homes)),
        )
    }

    /// Of a command that reads this many bytes and writes text. Nothing is shown where standard error is no terminal,
    /// or standard output is one: the text would be written over the line.
    pub(crate) fn over_bytes<R: Files<File = File>>(
        rt: &R,
        clock: &'a K,
        shown: ProgressLine,
        what: &'static str,
        bytes: u64,
    ) -> ShownProgress<'a, K> {
        let shown = if bytes == 0 {
            ProgressLine::Never
        } else {
            beside_text(rt, shown)
        };
        ShownProgress::new(rt, clock, shown, what, Course::Bytes(Advance::new(bytes)))
    }

    /// Of a command with this course.
    fn new<R: Files<File = File>>(
        rt: &R,
        clock: &'a K,
        shown: ProgressLine,
        what: &'static str,
        course: Course,
    ) -> ShownProgress<'a, K> {
        let line = match shown {
            ProgressLine::OnTerminal => TerminalLine::new(opened(rt, ERROR), clock, what, course),
            ProgressLine::Never => None,
        };
        ShownProgress { clock, line }
    }

    /// The block at a place is read or written.
    pub(crate) fn meet(&mut self, place: u64) {
        if let Some(line) = &mut self.line {
            line.meet(self.clock, place)
        }
    }

    /// So many bytes more are read.
    pub(crate) fn read(&mut self, bytes: usize) {
        if let Some(line) = &mut self.line {
            line.read(self.clock, bytes as u64)
        }
    }

    /// Erases the line.
    pub(crate) fn end(self) {
        if let Some(line) = self.line {
            line.erase()
        }
    }
}

/// Whether progress is shown beside the text on standard output.
fn beside_text<R: Files<File = File>>(rt: &R, shown: ProgressLine) -> ProgressLine {
    match shown {
        ProgressLine::OnTerminal => match opened(rt, OUTPUT) {
            Some(_) => ProgressLine::Never,
            None => ProgressLine::OnTerminal,
        },
        ProgressLine::Never => ProgressLine::Never,
    }
}

/// A stream that is opened once more, where it is a terminal.
fn opened<R: Files<File = File>>(rt: &R, name: &str) -> Option<File> {
    let file = OpenOptions::new().write(true).open(rt, name).ok()?;
    if file.is_terminal() { Some(file) } else { None }
}
