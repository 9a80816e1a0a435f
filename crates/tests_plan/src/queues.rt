//! Texts of queues, and what they are read as.
ghost use Rattle.std.specs.Prelude.{◌<◌};

use crate::checks::By;
use crate::faulty::check_faults;
use crate::handles::{is_copy, is_free};
use jb_block::Width;
use jb_handle::{Stopped, Word, Words};
use jb_queue::{Cause, HandleReader, QueueFault, QueueLines, QueueText, read_lines, read_queue};
use std::alloc::Global;
use tests_support::{Must, Test, check, check_at};

const TEXT: &str = "bs 1024\nlimit 7\nh w1 w2 w3\nh w3 w4 w5\nh w1 w2\n";

/// What each prefix of it is, by its length from 0 on: without a first line, without a second one, a queue of this many
/// handles, or one whose last line ends in a word that is none.
const PREFIXES: &[u8] = b"bbbbbbbllllllll001ww1ww1ww112ww2ww2ww223ww3ww33";

/// Whether a prefix was read as it should be.
fn is_read(read: Result<usize, QueueFault>, wanted: u8, line: u64) -> bool {
    let fault = |line, cause| Err(QueueFault { line, cause });
    match wanted {
        b'b' => read == fault(1, Cause::BlockSizeLine),
        b'l' => read == fault(2, Cause::LimitLine),
        b'w' => read == fault(line, Cause::OpWord),
        digit => read == Ok(usize::from(digit.saturating_sub(b'0'))),
    }
}

/// How many handles the queue of a text has.
fn count_in(alloc: Global, text: &[u8]) -> Result<usize, QueueFault> {
    match read_queue(alloc, text) {
        Ok(queue) => Ok(queue.handles.len()),
        Err(fault) => Err(fault),
    }
}

/// Checks each prefix of a text.
fn check_prefixes(test: &impl Test, alloc: Global) {
    let text = TEXT.as_bytes();
    check(test, PREFIXES.len() == text.len() + 1, "how many");
    let mut line = 1u64;
    for (end, wanted) in PREFIXES.iter().enumerate() {
        let front = text.get(..end).must(test, "a short text");
        let is_read = is_read(count_in(alloc, front), *wanted, line);
        check_at(test, is_read, "what is read of length", end as u64);
        if text.get(end) == Some(&b'\n') {
            line = line.saturating_add(1);
        }
    }
}

/// The first bytes of a copy of zeros.
const ZEROS: Option<[u8; 4]> = Some([0, 0, 0, 0]);

/// A word: a handle, a home block, and the first four bytes of its copy, or that it is free.
type Told = (usize, u64, Option<[u8; 4]>);

/// A queue text; its block size and width; its limit; how many blocks each handle touches; and words of it.
struct Queue(
    &'static str,
    (usize, Width),
    u32,
    &'static [usize],
    [Told; 4],
);

static QUEUES: [Queue; 4] = [
    Queue(
        TEXT,
        (1024, Width::Narrow),
        7,
        &[3, 3, 2],
        [(0, 1, ZEROS), (0, 3, ZEROS), (1, 5, ZEROS), (2, 2, ZEROS)],
    ),
    Queue(
        "bs 1024\nlimit 7\nh w5=C03b r7 r5 w7=01 w4294967295=ff w5=00ff\nh\nh r9",
        (1024, Width::Narrow),
        7,
        &[3, 0, 1],
        [
            (0, 5, Some([0, 255, 0, 0])),
            (0, 7, Some([1, 0, 0, 0])),
            (0, 4294967295, Some([255, 0, 0, 0])),
            (2, 9, None),
        ],
    ),
    Queue(
        "bs 4096 wide\nlimit 7\nh w4294967301=05 w5 r18446744073709551615\nh r4294967296\n",
        (4096, Width::Wide),
        7,
        &[3, 1],
        [
            (0, 4294967301, Some([5, 0, 0, 0])),
            (0, 5, ZEROS),
            (0, 18446744073709551615, None),
            (1, 4294967296, None),
        ],
    ),
    Queue(
        "bs 1024\nlimit 7\nh w4294967301 w4294967301=05\nh w5 r4294967296",
        (1024, Width::Narrow),
        7,
        &[1, 2],
        [
            (0, 4294967301, Some([5, 0, 0, 0])),
            (1, 5, ZEROS),
            (1, 4294967296, None),
            (1, 4294967296, None),
        ],
    ),
];

/// Whether a word is a copy of this many bytes that begins with these, or, without any, that it is free.
fn is_word(word: Option<&Word>, size: usize, bytes: Option<[u8; 4]>) -> bool {
    match bytes {
        Some(bytes) => is_copy(word, size, bytes),
        None => is_free(word),
    }
}

/// Checks the tickets of handles, and how many blocks each touches.
fn check_counts(test: &impl Test, handles: &[Stopped], counts: &[usize], row: u64) {
    check_at(
        test,
        handles.len() == counts.len(),
        "how many handles has row",
        row,
    );
    for (ticket, handle) in handles.iter().enumerate() {
        check_at(test, handle.ticket == ticket as u64, "a ticket of row", row);
        let is_so = counts.get(ticket) == Some(&handle.words.len());
        check_at(test, is_so, "a handle of row", row)
    }
}

/// Checks words of handles whose blocks have this size.
fn check_words(test: &impl Test, handles: &[Stopped], size: usize, words: &[Told]) {
    for (at, home, bytes) in words {
        let handle = handles.get(*at).must(test, "a handle");
        let is_word = is_word(handle.words.get(*home), size, *bytes);
        check_at(test, is_word, "home block", *home)
    }
}

/// Checks what a queue was read as.
fn check_queue(test: &impl Test, queue: &QueueText, wanted: &Queue, row: u64) {
    let Queue(_, (size, width), limit, counts, words) = wanted;
    let is_format = queue.limit == *limit && queue.width == *width;
    check_at(test, is_format, "the first lines of row", row);
    check_counts(test, &queue.handles, counts, row);
    check_words(test, &queue.handles, *size, words)
}

/// Whether two words are free, or copies with the same first bytes.
fn is_alike(one: &Word, other: &Word) -> bool {
    match (one, other) {
        (Word::Copy(one), Word::Copy(other)) if one.len() > 3 && other.len() > 3 => {
            one.front() == other.front()
        }
        (Word::Free, Word::Free) => true,
        _ => false,
    }
}

/// Whether two handles leave like words at the same home blocks.
fn are_alike(one: &Words, other: &Words) -> bool {
    if one.len() != other.len() {
        return false;
    }
    for (one, other) in one.entries().iter().zip(other.entries()) {
        if one.0 != other.0 || !is_alike(&one.1, &other.1) {
            return false;
        }
    }
    true
}

/// The words of the handle that comes after this many others.
fn read_words(
    test: &impl Test,
    alloc: Global,
    reader: &mut HandleReader<'_>,
    passed: usize,
) -> Option<Words> {
    reader.read(alloc, passed).must(test, "memory")
}

/// Checks the handles that are read from lines: the first one, and those that are this many after the one before.
fn check_each(
    test: &impl Test,
    alloc: Global,
    lines: &QueueLines,
    queue: &QueueText,
    step: usize,
    row: u64,
)
    requires { 0 < step }
{
    let mut reader = lines.reader();
    let mut passed = 0;
    for handle in queue.handles.iter().step_by(step) {
        let words = read_words(test, alloc, &mut reader, passed).must(test, "a handle");
        check_at(test, are_alike(&words, &handle.words), "a line of row", row);
        passed = step - 1;
    }
    let rest = read_words(test, alloc, &mut reader, passed);
    check_at(test, rest.is_none(), "the end of row", row)
}

/// Checks what is read of the lines before the handles, and how many handles there are.
fn check_front(test: &impl Test, lines: &QueueLines, queue: &QueueText, row: u64) {
    let is_long = lines.len() == queue.handles.len();
    check_at(test, is_long, "how many lines has row", row);
    let is_format = lines.bs == queue.bs
        && lines.limit == queue.limit
        && lines.width == queue.width;
    check_at(test, is_format, "the lines before the handles of row", row)
}

/// Checks that the handles of a text that are read from its lines, all of them or each second one, are those of its
/// queue.
fn check_lines(test: &impl Test, alloc: Global, text: &str, queue: &QueueText, row: u64) {
    let bytes = text.as_bytes().to_vec(alloc).must(test, "memory");
    let lines = read_lines(alloc, bytes).must(test, "a text is refused");
    check_front(test, &lines, queue, row);
    check_each(test, alloc, &lines, queue, 1, row);
    check_each(test, alloc, &lines, queue, 2, row)
}

/// Checks what the text of a row is read as.
fn check_row(test: &impl Test, alloc: Global, wanted: &Queue, row: u64) {
    let text = wanted.0;
    let queue = read_queue(alloc, text.as_bytes()).must(test, "a text is refused");
    check_queue(test, &queue, wanted, row);
    check_lines(test, alloc, text, &queue, row)
}

fn check_queues(test: &impl Test, alloc: Global) {
    for (row, wanted) in QUEUES.iter().enumerate() {
        check_row(test, alloc, wanted, row as u64)
    }
}

fn check_texts(test: &impl Test, alloc: Global) {
    check_prefixes(test, alloc);
    check_queues(test, alloc);
    check_faults(test, alloc)
}

#[test]
fn texts_are_queues_or_have_their_first_fault(rt: HostRuntime) {
    check_texts(&By(&rt), rt.alloc())
}
