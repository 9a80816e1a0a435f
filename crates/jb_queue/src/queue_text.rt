//! The text of a queue: `bs 1024` or `bs 1024 wide`, `limit 7`, and a line of words for each handle, as `h w1 w2 r3`.

ghost use Rattle.std.specs.Prelude.{◌≡◌, ◌*◌, ◌+◌, ◌≤◌, [], length, IfOk, IfErr, Ok, Err, option_map};
ghost use Rattle.std.specs.FinMap as map;
ghost use Rattle.std.specs.Option.{option_and_then};
ghost use Rattle.jb_block.specs.Size.{bytes_of};
ghost use Rattle.jb_queue.specs.declared.fault.Cause.TheVariants.{Memory as OutOfMemory};
ghost use Rattle.jb_text.specs.Parts.{read_first, lines, number_of, words};
ghost use Rattle.jb_handle.specs.Size.{weight};
ghost use Rattle.jb_queue.specs.QueueText.{value_of};
ghost use Rattle.jb_queue.specs.QueueLines.{handles_of, queue_in};
ghost use Rattle.jb_queue.specs.Queue.{Gives, Reports, BeginsHandle, FirstReads, MayGrow};
ghost use Rattle.jb_queue.specs.Queue.{MayGrowAt, after_ops, handle_of, queue_of, after_lines};
ghost use Rattle.jb_queue.specs.Queue.{format_behind, format_of, limit_in_line, size_of_bytes, width_behind};

use crate::fault::{Cause, QueueFault};
use crate::op_text::read_op;
use crate::queue_lines::{QueueLines, count_handles};
use jb_block::{BlockSize, Width};
use jb_handle::{Stopped, Words, WordsBuilder};
use jb_text::{next_line, next_word, number, part};
use std::alloc::Global;

/// A queue of stopped handles with the block size, limit and width of its journal, as a text gives
/// them.
#[derive(Debug, Drop)]
pub struct QueueText {
    /// The size of a block.
    pub bs: BlockSize,
    /// The most log blocks that a group may take.
    pub limit: u32,
    /// The width of the block numbers.
    pub width: Width,
    /// The handles in their order; a handle's ticket is its place, from 0 on.
    pub handles: Vec<Stopped>,
}

/// Reads the text of a queue.
///
/// The handle on line k has the ticket k - 3. Of several words on one home block the last one counts.
///
/// # Errors
///
/// The first line that is not of the form, and what is wrong with it. `Memory` at a handle's line says that
/// memory ran out there, and that all lines before it, and its first word, are of the form.
pub fn read_queue(alloc: Global, text: &[u8]) -> Result<QueueText, QueueFault>
    /// A queue that is read is the one that the definition gives of the text.
    ensures ok { IfOk result (λ queue. queue_of text.now ≡ Ok (value_of queue)) }
    /// A text is refused with its first fault and the line of it.
    ensures err { IfErr result (Reports (queue_of text.now)) }
    /// Where memory ran out, it names a handle's line, and that line's first word is of the form.
    ensures memory { IfErr result (λ fault. fault.cause ≡ OutOfMemory → MayGrowAt text.now fault.line) }
    ensures within { IfOk result (λ queue. 2 * weight queue.handles.items ≤ length text.now + 1) }
{
    let Some(((bs, width), text)) = first_format(text) else {
        return Err(QueueFault {
            line: 1,
            cause: Cause::BlockSizeLine,
        });
    };
    let Some((limit, text)) = first_limit(text) else {
        return Err(QueueFault {
            line: 2,
            cause: Cause::LimitLine,
        });
    };
    let handles = read_handles(alloc, text, bs)?;
    Ok(QueueText {
        bs,
        limit,
        width,
        handles,
    })
}

/// Reads the text of a queue without keeping its handles, which are then read from it one by one
/// ([`QueueLines::reader`]). The bytes of one word at a time take memory.
///
/// # Errors
///
/// As those of [`read_queue`].
#[tactic(auto, unfolding(crate::specs::QueueLines::handles_of))]
pub fn read_lines(alloc: Global, text: Vec<u8>) -> Result<QueueLines, QueueFault>
    /// With `err`, `memory`: A text that is kept with its handles unread is accepted where it spells a queue, this one,
    /// and else is refused with its first fault, as by `read_queue`.
    ensures ok { IfOk result (λ queue. queue_of text.items ≡ Ok (queue_in queue)) }
    ensures err { IfErr result (Reports (queue_of text.items)) }
    ensures memory { IfErr result (λ fault. fault.cause ≡ OutOfMemory → MayGrowAt text.items fault.line) }
    ensures within { IfOk result (λ queue. 2 * weight (handles_of queue) ≤ length text.items + 1) }
{
    let Some(((bs, width), rest)) = first_format(text.as_slice()) else {
        return Err(QueueFault {
            line: 1,
            cause: Cause::BlockSizeLine,
        });
    };
    let Some((limit, rest)) = first_limit(rest) else {
        return Err(QueueFault {
            line: 2,
            cause: Cause::LimitLine,
        });
    };
    let count = count_handles(alloc, rest, bs)?;
    Ok(QueueLines {
        bs,
        limit,
        width,
        text,
        count,
    })
}

/// The block size and the width on the first line of a text, and the text after that line.
fn first_format(text: &[u8]) -> Option<((BlockSize, Width), &[u8])>
    ensures { option_map (λ p. (p.0, lines p.1.now)) result ≡ read_first format_of (lines text.now) }
{
    let (line, rest) = next_line(text)?;
    Some((read_format(line)?, rest))
}

/// The limit on the first line of a text, and the text after that line.
fn first_limit(text: &[u8]) -> Option<(u32, &[u8])>
    ensures { option_map (λ p. (p.0, lines p.1.now)) result ≡ read_first limit_in_line (lines text.now) }
{
    let (line, rest) = next_line(text)?;
    Some((read_limit(line)?, rest))
}

/// The block size and the width that a line gives.
fn read_format(line: &[u8]) -> Option<(BlockSize, Width)>
    ensures { result ≡ format_of line.now }
{
    format_in(line.strip_prefix(b"bs ")?)
}

/// The block size and the width after `bs `.
fn format_in(text: &[u8]) -> Option<(BlockSize, Width)>
    ensures { result ≡ format_behind text.now }
{
    let (digits, rest) = part(text, b' ');
    Some((read_size(digits)?, read_width(rest)?))
}

/// The width after a block size.
fn read_width(text: &[u8]) -> Option<Width>
    ensures { result ≡ width_behind text.now }
{
    match text {
        [] => Some(Width::Narrow),
        b" wide" => Some(Width::Wide),
        _ => None,
    }
}

/// The block size that digits name.
fn read_size(digits: &[u8]) -> Option<BlockSize>
    ensures { result ≡ option_and_then size_of_bytes (number_of digits.now) }
{
    match number(digits)? {
        1024 => Some(BlockSize::OneKib),
        2048 => Some(BlockSize::TwoKib),
        4096 => Some(BlockSize::FourKib),
        _ => None,
    }
}

/// The limit that a line gives.
fn read_limit(line: &[u8]) -> Option<u32>
    ensures { result ≡ limit_in_line line.now }
{
    match number(line.strip_prefix(b"limit ")?)? {
        limit @ 3..=2147483646 => Some(limit as u32),
        _ => None,
    }
}

/// The handles of the lines of a text, which are those from the third of a queue text on.
fn read_handles(alloc: Global, text: &[u8], bs: BlockSize) -> Result<Vec<Stopped>, QueueFault>
    ensures ok { IfOk result (λ handles. after_lines (bytes_of bs) [] (lines text.now) ≡ Ok handles.items) }
    ensures err { IfErr result (Reports (after_lines (bytes_of bs) [] (lines text.now))) }
    ensures memory { IfErr result (λ fault. fault.cause ≡ OutOfMemory
        → MayGrow (bytes_of bs) (lines text.now) fault.line) }
{
    let mut handles = Vec::new(alloc);
    let mut rest = text;
    while let Some((line, behind)) = next_line(rest) {
        let at = handles.len() as u64;
        match read_handle(alloc, line, bs) {
            Ok(words) => {
                let Ok(()) = handles.push(Stopped { ticket: at, words }) else {
                    return Err(QueueFault {
                        line: at + 3,
                        cause: Cause::Memory,
                    });
                };
            }
            Err(cause) => return Err(QueueFault {
                line: at + 3,
                cause,
            }),
        }
        rest = behind;
    }
    Ok(handles)
}

/// The words of the handle that a line lists.
pub(crate) fn read_handle(alloc: Global, line: &[u8], bs: BlockSize) -> Result<Words, Cause>
    ensures gives { Gives result (handle_of (bytes_of bs) line.now) }
    ensures begins { result ≡ Err OutOfMemory → BeginsHandle (bytes_of bs) line.now }
{
    match line {
        [b'h'] => Ok(Words::new(alloc)),
        [b'h', b' ', text @ ..] => read_ops(alloc, text, bs),
        _ => Err(Cause::HandleLine),
    }
}

/// The words of a handle, from after the first space of its line on.
fn read_ops(alloc: Global, text: &[u8], bs: BlockSize) -> Result<Words, Cause>
    ensures gives { Gives result (after_ops (bytes_of bs) map.empty (words text.now)) }
    ensures first { result ≡ Err OutOfMemory → FirstReads (bytes_of bs) (words text.now) }
{
    let mut gathered = WordsBuilder::new(alloc);
    let mut rest = Some(text);
    while let Some(text) = rest {
        let (word, behind) = next_word(text);
        let (home, op) = read_op(alloc, word, bs)?;
        gathered.put(home, op)?;
        rest = behind;
    }
    Ok(gathered.into_words(alloc)?)
}
