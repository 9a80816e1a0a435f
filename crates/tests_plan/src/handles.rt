//! Changes that a handle takes or refuses, and the words that it leaves.

use crate::checks::By;
use jb_block::{BlockSize, Width};
use jb_handle::{
    Changes, Handle, Op, Payload, Shape, Stopped, TouchFault, Word, Words, WordsBuilder,
};
use std::alloc::Global;
use tests_support::{Must, Test, check, check_at};

const SMALL: Shape = Shape {
    bs: BlockSize::OneKib,
    homes: 16,
    limit: 8,
    width: Width::Narrow,
};

/// A change of a home block, by a copy of this many bytes or by a freed block; and its refusal.
struct Row(u64, Option<usize>, Option<TouchFault>);

/// Changes of a handle with two credits, one after the other.
static ROWS: [Row; 10] = [
    Row(16, Some(1023), Some(TouchFault::OutOfRange(16))),
    Row(16, None, Some(TouchFault::OutOfRange(16))),
    Row(15, Some(1023), Some(TouchFault::Length)),
    Row(15, Some(0), Some(TouchFault::Length)),
    Row(5, Some(1024), None),
    Row(6, None, None),
    Row(16, Some(1023), Some(TouchFault::NoCredit(2))),
    Row(7, None, Some(TouchFault::NoCredit(2))),
    Row(6, Some(1024), None),
    Row(5, None, None),
];

/// A change by its call.
fn call(handle: &mut Handle<u32>, home: u64, len: Option<usize>) -> Result<(), TouchFault> {
    let mut block = [0; 1024];
    block[..2].fill(7);
    match len {
        Some(len) => handle.write(home, &block[..len.min(1024)]),
        None => handle.revoke(home),
    }
}

/// The word of a change, whose bytes are two and zeros after them.
fn word_of(test: &impl Test, alloc: Global, len: Option<usize>) -> Word {
    match len {
        Some(len) => {
            let front = [7, 7][..len.min(2)].to_vec(alloc).must(test, "memory");
            Word::Copy(Payload::padded(front, len))
        }
        None => Word::Free,
    }
}

/// Whether a word is a copy of this many bytes that begins with these.
pub fn is_copy(word: Option<&Word>, len: usize, front: [u8; 4]) -> bool {
    match word {
        Some(Word::Copy(payload)) if payload.len() == len && len > 3 => payload.front() == front,
        _ => false,
    }
}

/// Whether a word is a freed block.
pub fn is_free(word: Option<&Word>) -> bool {
    matches!(word, Some(Word::Free))
}

/// What a handle answers to a change, by its call or by its word.
fn answer_of(
    test: &impl Test,
    alloc: Global,
    handle: &mut Handle<u32>,
    by_word: bool,
    row: &Row,
) -> Option<TouchFault> {
    let Row(home, len, _) = row;
    if by_word {
        let word = word_of(test, alloc, *len);
        handle.put(*home, &word).err()
    } else {
        call(handle, *home, *len).err()
    }
}

/// Checks the changes of each row, by the calls or by their words.
fn check_answered(test: &impl Test, alloc: Global, handle: &mut Handle<u32>, by_word: bool) {
    for row in &ROWS {
        let is_so = answer_of(test, alloc, handle, by_word, row) == row.2;
        check_at(test, is_so, "home block", row.0)
    }
}

/// Checks what a handle tells after them.
fn check_told(test: &impl Test, handle: &Handle<u32>) {
    check(test, handle.touched() == 2, "how many blocks are touched");
    let is_told = *handle.seat() == 3 && handle.credits() == 2 && handle.words().len() == 2;
    check(test, is_told, "what the handle tells")
}

/// Checks the words that it leaves.
fn check_left(test: &impl Test, words: &Words) {
    check(test, words.len() == 2 && words.fit(SMALL), "what is left");
    check(test, is_free(words.get(5)), "home block 5");
    check(test, is_copy(words.get(6), 1024, [7, 7, 0, 0]), "block 6")
}

/// Checks the changes of each row, by the calls or by their words, and what the handle leaves.
fn check_changes(test: &impl Test, alloc: Global, by_word: bool) {
    let mut handle = Handle::new(alloc, 3, 2, SMALL);
    check_answered(test, alloc, &mut handle, by_word);
    check_told(test, &handle);
    let (seat, words) = handle.end();
    check(test, seat == 3, "the seat that is left");
    check_left(test, &words)
}

/// A change by its value.
fn op_of(test: &impl Test, alloc: Global, home: u64, len: Option<usize>) -> Op {
    match word_of(test, alloc, len) {
        Word::Copy(payload) => Op::Write(home, payload),
        Word::Free => Op::Revoke(home),
    }
}

/// Checks the same changes of each row, by their values.
fn check_applied(test: &impl Test, alloc: Global) {
    let mut changes = Changes::new(alloc, 2, SMALL);
    for row in &ROWS {
        let op = op_of(test, alloc, row.0, row.1);
        let is_so = changes.apply(op).err() == row.2;
        check_at(test, is_so, "home block, by value", row.0)
    }
    let is_so = changes.touched() == 2;
    check(test, is_so, "how many blocks are touched by value")
}

/// A copy of these bytes.
fn copy_of(test: &impl Test, alloc: Global, bytes: &[u8]) -> Word {
    Word::Copy(Payload::of(alloc, bytes).must(test, "memory"))
}

/// The words of the first of two handles.
fn first_words(test: &impl Test, alloc: Global) -> Words {
    let mut words = Words::new(alloc);
    words.put(7, Word::Free).must(test, "memory");
    words.put(5, Word::Free).must(test, "memory");
    words
        .put(7, copy_of(test, alloc, b"abcd"))
        .must(test, "memory");
    words
}

/// The words of the second one.
fn second_words(test: &impl Test, alloc: Global) -> Words {
    let mut words = WordsBuilder::new(alloc);
    words.put(9, Word::Free).must(test, "memory");
    let front = vec![in alloc; 1].must(test, "memory");
    words
        .put(3, Word::Copy(Payload::padded(front, 4)))
        .must(test, "memory");
    words.put(5, Word::Free).must(test, "memory");
    words
        .put(5, copy_of(test, alloc, b"efgh"))
        .must(test, "memory");
    words.into_words(alloc).must(test, "memory")
}

/// The words of two handles.
fn two_handles(test: &impl Test, alloc: Global) -> [Stopped; 2] {
    let (first, second) = (first_words(test, alloc), second_words(test, alloc));
    [
        Stopped {
            ticket: 0,
            words: first,
        },
        Stopped {
            ticket: 1,
            words: second,
        },
    ]
}

/// Whether a copy of what a word holds has 4 bytes, which are these.
fn holds_copied(test: &impl Test, word: &Word, bytes: [u8; 4]) -> bool {
    match word {
        Word::Copy(payload) => {
            let copy = payload.try_clone().must(test, "memory");
            copy.len() == 4 && copy.front() == bytes
        }
        Word::Free => false,
    }
}

/// Whether a copy of a word is a copy of 4 bytes, which are these.
fn is_copied(test: &impl Test, word: &Word, bytes: [u8; 4]) -> bool {
    let copy = word.try_clone().must(test, "memory");
    is_copy(Some(&copy), 4, bytes) && holds_copied(test, &copy, bytes)
}

/// Words that go to home blocks that have none, beside a freed one.
fn gathered(test: &impl Test, alloc: Global, words: &Words) -> Words {
    let mut gathered = WordsBuilder::new(alloc);
    gathered.put(5, Word::Free).must(test, "memory");
    gathered.add_all(words).must(test, "memory");
    gathered.into_words(alloc).must(test, "memory")
}

/// Checks copies of words.
fn check_gathered(test: &impl Test, alloc: Global, words: &Words) {
    let all = gathered(test, alloc, words);
    check(test, all.len() == 4 && is_free(all.get(5)), "what is added");
    let word = all.get(7).must(test, "home block 7");
    check(test, is_copied(test, word, *b"abcd"), "a copy of a word")
}

/// The copies that both handles leave: a home block, and four bytes.
static COPIES: [(u64, [u8; 4]); 3] = [(3, [1, 0, 0, 0]), (5, *b"efgh"), (7, *b"abcd")];

/// Checks the words of both handles.
fn check_both(test: &impl Test, words: &Words) {
    check(test, words.len() == 4 && !words.fit(SMALL), "what is left");
    check(test, words.get(6).is_none(), "home block 6");
    for (home, bytes) in &COPIES {
        check_at(
            test,
            is_copy(words.get(*home), 4, *bytes),
            "home block",
            *home,
        )
    }
    check(test, is_free(words.get(9)), "home block 9")
}

/// Checks the words of two handles as those of one.
fn check_joined(test: &impl Test, alloc: Global) {
    let handles = two_handles(test, alloc);
    let words = Words::joined(alloc, &handles).must(test, "memory");
    check_both(test, &words);
    check_gathered(test, alloc, &words)
}

/// Credits bound the blocks that a handle touches, and of several faults the first is answered, by each call of a
/// change; and of two handles the last word on a block is kept.
fn check_handles(test: &impl Test, alloc: Global) {
    check_changes(test, alloc, false);
    check_changes(test, alloc, true);
    check_applied(test, alloc);
    check_joined(test, alloc)
}

#[test]
fn changes_are_taken_or_refused_and_joined(rt: HostRuntime) {
    check_handles(&By(&rt), rt.alloc())
}
