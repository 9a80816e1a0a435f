//! The handles of a queue text, which are read from it when they are asked for.

ghost use Rattle.std.specs.Prelude.{◌≡◌, ◌*◌, ◌+◌, ◌≤◌, [], drop, length, IsOk, IfOk, IfErr, Ok, Err};
ghost use Rattle.jb_block.specs.Size.{bytes_of};
ghost use Rattle.jb_queue.specs.declared.fault.Cause.TheVariants.{Memory as OutOfMemory};
ghost use Rattle.std.specs.FinMap as map;
ghost use Rattle.jb_text.specs.Parts.{lines, words};
ghost use Rattle.jb_queue.specs.Queue.{BeginsHandle, FirstReads, JudgesText, Reports, IsCount, MayGrow};
ghost use Rattle.jb_queue.specs.Queue.{after_lines, after_ops, handle_of, handles_of_text};

use crate::fault::{Cause, QueueFault};
use crate::op_text::read_op;
use crate::queue_text::read_handle;
use jb_block::{BlockSize, Memory, Width};
use jb_handle::Words;
use jb_text::{next_line, next_word};
use std::alloc::Global;

/// A queue text that is of the form. It keeps the text and none of the handles: these are read from it when they are
/// asked for.
#[derive(Drop)]
pub struct QueueLines {
    /// The size of a block.
    pub bs: BlockSize,
    /// The most log blocks that a group may take.
    pub limit: u32,
    /// The width of the block numbers.
    pub width: Width,
    /// The whole text.
    pub(crate) text: Vec<u8>,
    /// How many handles it lists.
    pub(crate) count: usize,
    ghost reads: { IsOk (after_lines (bytes_of bs) [] (drop 2 (lines text.items))) },
    ghost counted: { count ≡ length (handles_of_text (bytes_of bs) text.items) },
    ghost few: { count ≤ length text.items },
}

impl QueueLines {
    ghost use Rattle.std.specs.Prelude.{IsTrue, ◌↔◌, ◌<◌, ◌^◌};
    ghost use Rattle.jb_queue.specs.QueueLines.{handles_of, StandsAfter};

    /// How many handles there are.
    #[tactic(auto, unfolding(crate::specs::QueueLines::handles_of))]
    pub fn len(&self) -> usize
        ensures value { result ≡ length (handles_of self.now) }
        ensures bound { result < 2 ^ 63 }
    {
        self.count
    }

    /// Whether there is no handle.
    #[tactic(auto, unfolding(crate::specs::QueueLines::handles_of))]
    pub fn is_empty(&self) -> bool
        ensures { IsTrue result ↔ (length (handles_of self.now) ≡ 0) }
    {
        self.count == 0
    }

    /// A reader at the first handle.
    #[tactic(auto, unfolding(crate::specs::QueueLines::handles_of))]
    pub fn reader(&self) -> HandleReader<'_>
        ensures { StandsAfter result (handles_of self.now) 0 }
    {
        HandleReader {
            bs: self.bs,
            rest: pass_lines(&self.text, 2),
        }
    }
}

/// Reads handles of a queue text in their order.
#[derive(Drop)]
pub struct HandleReader<'a> {
    bs: BlockSize,
    /// The lines of the handles that are left.
    rest: &'a [u8],
}

impl HandleReader<'_> {
    ghost use Rattle.std.specs.Prelude.{ℕ, List};
    ghost use Rattle.jb_handle.specs.declared.stopped.Stopped.{Stopped as StoppedValue};
    ghost use Rattle.jb_queue.specs.QueueLines.{HasRead, StandsAfter};

    /// Passes over this many handles, and reads the words of the next one; `None` where none is left. The reader then
    /// is after it. What is passed over takes no memory.
    ///
    /// # Errors
    ///
    /// `Memory` where there is none for the words of the handle; the reader is after it then, too.
    pub fn read(&mut self, alloc: Global, passed: usize) -> Result<Option<Words>, Memory>
        /// What is read from it is the handle of the queue at the reader's place, after those that are passed over; the
        /// reader is after it then.
        ensures { (all : List StoppedValue) (at : ℕ) → StandsAfter self.old all at
            → HasRead all (at + passed) self.new result }
    {
        self.rest = pass_lines(self.rest, passed);
        let Some((line, behind)) = next_line(self.rest) else {
            return Ok(None);
        };
        self.rest = behind;
        match read_handle(alloc, line, self.bs) {
            Ok(words) => Ok(Some(words)),
            Err(_) => Err(Memory),
        }
    }
}

/// The text after this many of its lines; no text where it has fewer.
fn pass_lines(text: &[u8], passed: usize) -> &[u8]
    ensures { lines result.now ≡ drop passed (lines text.now) }
{
    let mut rest = text;
    'lines: for i in 0..passed {
        match next_line(rest) {
            Some((_, behind)) => rest = behind,
            None => return rest,
        }
    }
    rest
}

/// How many handles the lines of a text are, which are those from the third of a queue text on.
pub(crate) fn count_handles(alloc: Global, text: &[u8], bs: BlockSize) -> Result<usize, QueueFault>
    ensures ok { IfOk result (IsCount (after_lines (bytes_of bs) [] (lines text.now))) }
    ensures err { IfErr result (Reports (after_lines (bytes_of bs) [] (lines text.now))) }
    ensures memory { IfErr result (λ fault. fault.cause ≡ OutOfMemory
        → MayGrow (bytes_of bs) (lines text.now) fault.line) }
{
    let mut count = 0;
    let mut rest = text;
    while let Some((line, behind)) = next_line(rest) {
        match check_handle(alloc, line, bs) {
            Ok(()) => count += 1,
            Err(cause) => return Err(QueueFault {
                line: count as u64 + 3,
                cause,
            }),
        }
        rest = behind;
    }
    Ok(count)
}

/// Judges the line of a handle as it is read, and keeps nothing of it.
fn check_handle(alloc: Global, line: &[u8], bs: BlockSize) -> Result<(), Cause>
    ensures judges { JudgesText result (handle_of (bytes_of bs) line.now) }
    ensures begins { result ≡ Err OutOfMemory → BeginsHandle (bytes_of bs) line.now }
{
    match line {
        [b'h'] => Ok(()),
        [b'h', b' ', text @ ..] => check_ops(alloc, text, bs),
        _ => Err(Cause::HandleLine),
    }
}

/// Judges the words of a handle, from after the first space of its line on. The bytes of one word at a time take
/// memory.
fn check_ops(alloc: Global, text: &[u8], bs: BlockSize) -> Result<(), Cause>
    ensures judges { JudgesText result (after_ops (bytes_of bs) map.empty (words text.now)) }
    ensures first { result ≡ Err OutOfMemory → FirstReads (bytes_of bs) (words text.now) }
{
    let mut rest = Some(text);
    while let Some(text) = rest {
        let (word, behind) = next_word(text);
        let _op = read_op(alloc, word, bs)?;
        rest = behind;
    }
    Ok(())
}
