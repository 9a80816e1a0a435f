//! Calls of a journal beside the plain model of its homes.

use crate::contents::{Left, fill, only};
use crate::groups::STAMP;
use crate::model::{Model, Touch};
use crate::scripts::{Refusal, next_ticket, prepared, refused};
use crate::touches::touches_of;
use jb_deck::{BatchFault, CheckpointFault, Deck, FreeFault, Prepared};
use jb_disk::Disk;
use jb_handle::{Payload, Shape, Stopped, Word, Words};
use tests_support::{Bench, Must, Test, check, fail};

/// The homes to which a handle copies contents, each of this number and the home's own, and those that it frees.
pub type Does = (&'static [u32], u32, &'static [u32]);

/// A call.
#[derive(Clone, Copy)]
pub enum Call<'a> {
    /// This many handles, and what they do, are committed as one batch, or left out where none fits.
    Commit(usize, &'a [Touch]),
    /// The same, by what each of the handles does.
    Handles(&'a [Does]),
    /// The oldest transaction is checkpointed, if there is one.
    Checkpoint,
    /// The oldest transactions are checkpointed together, at most this many, if there is one.
    Run(usize),
    /// These contents are written to a home, if it is free.
    Write(usize, u32),
}

/// How many handles a batch has, and what they do.
type Made<'a> = (usize, &'a [Touch]);

/// A further word of a handle: a copy of this block, or that the home is free.
pub fn put_word(test: &impl Bench, words: &mut Words, home: u64, block: Option<&[u8]>) {
    let word = match block {
        Some(block) => Word::Copy(Payload::of(test.alloc(), block).must(test, "memory")),
        None => Word::Free,
    };
    words.put(home, word).must(test, "a word");
}

/// A further handle of a batch.
pub fn push_handle(test: &impl Test, handles: &mut Vec<Stopped>, ticket: u64, words: Words) {
    handles.push(Stopped { ticket, words }).must(test, "memory");
}

/// A further word of a handle: a copy of these contents, or that the home is free.
fn put_contents(test: &impl Bench, words: &mut Words, home: u64, copy: Option<u32>) {
    let mut block = [0; 1024];
    match copy {
        Some(number) => {
            fill(&mut block, number);
            put_word(test, words, home, Some(block.as_slice()))
        }
        None => put_word(test, words, home, None),
    }
}

/// The words of one handle of a batch.
fn words_of(test: &impl Bench, touches: &[Touch], handle: usize) -> Words {
    let mut words = Words::new(test.alloc());
    for (of, home, copy) in touches {
        if *of == handle {
            put_contents(test, &mut words, *home as u64, *copy);
        }
    }
    words
}

/// The handles of a batch, with tickets from `first` on.
fn stopped(test: &impl Bench, first: u64, call: Made<'_>) -> Vec<Stopped> {
    let (count, touches) = call;
    let mut handles = Vec::new(test.alloc());
    let mut ticket = first;
    for handle in 0..count {
        push_handle(test, &mut handles, ticket, words_of(test, touches, handle));
        ticket = ticket.saturating_add(1);
    }
    handles
}

/// The bounds of a batch's groups, or none where no cut fits.
fn bounds(test: &impl Bench, first: u64, call: Made<'_>, shape: Shape) -> Option<Vec<usize>> {
    let Some(batch) = prepared(test.alloc(), first, stopped(test, first, call), shape) else {
        return None;
    };
    let bounds = batch.groups().to_vec(test.alloc());
    let _handles = batch.back().end();
    Some(bounds.must(test, "memory"))
}

/// A batch with its plan, which was made before.
fn planned(test: &impl Bench, first: u64, call: Made<'_>, shape: Shape) -> Prepared {
    prepared(test.alloc(), first, stopped(test, first, call), shape).must(
        test,
        "it was planned before",
    )
}

/// How many groups were settled before a fault of the disk.
fn settled_before(test: &impl Test, fault: BatchFault) -> usize {
    match refused(fault) {
        (Refusal::DeviceFault(settled), _) => settled,
        _ => fail(test, "the batch is refused"),
    }
}

/// Commits a batch: how many groups are settled, and whether it met a fault.
fn settled_by<D: Disk>(test: &impl Test, deck: &mut Deck<D>, batch: Prepared) -> (usize, bool) {
    match deck.commit_batch(batch, STAMP) {
        Ok(done) => (done.entries().len(), false),
        Err(fault) => (settled_before(test, fault), true),
    }
}

/// What a crash may leave once the group of this index is in the model too, where this many groups are settled.
fn leave(left: &mut Left, model: &Model, group: usize, settled: usize) {
    if group < settled {
        *left = only(model.standing());
    } else if group == settled {
        left.becomes = model.standing();
    }
}

/// Puts the groups of a batch into the model: what a crash may leave where this many of them are settled.
fn put_groups(
    test: &impl Test,
    model: &mut Model,
    bounds: &[usize],
    touches: &[Touch],
    settled: usize,
) -> Left {
    let mut left = only(model.standing());
    let mut low = 0;
    for (i, high) in bounds.iter().skip(1).enumerate() {
        model.commit(test, touches, low, *high);
        leave(&mut left, model, i, settled);
        low = *high;
    }
    left
}

/// Commits a batch whose groups have these bounds; after a fault, what a crash may leave.
fn commit_groups<D: Disk>(
    test: &impl Bench,
    deck: &mut Deck<D>,
    model: &mut Model,
    call: Made<'_>,
    bounds: &[usize],
) -> Option<Left> {
    let batch = planned(test, next_ticket(deck), call, deck.shape());
    let groups = bounds.len().saturating_sub(1);
    let (settled, met) = settled_by(test, deck, batch);
    let fits = settled == groups || (met && settled < groups);
    check(test, fits, "too few or too many groups are settled");
    let left = put_groups(test, model, bounds, call.1, settled);
    met.then_some(left)
}

/// Commits a batch, or leaves it out where none fits; after a fault, what a crash may leave.
fn commit<D: Disk>(
    test: &impl Bench,
    deck: &mut Deck<D>,
    model: &mut Model,
    call: Made<'_>,
) -> Option<Left> {
    match bounds(test, next_ticket(deck), call, deck.shape()) {
        Some(bounds) => commit_groups(test, deck, model, call, &bounds),
        None => None,
    }
}

/// Calls a journal and its model; after a fault, what a crash may leave. An answer that the model does not have
/// fails.
pub fn make_call<D: Disk>(
    test: &impl Bench,
    deck: &mut Deck<D>,
    model: &mut Model,
    call: Call<'_>,
) -> Option<Left> {
    match call {
        Call::Commit(count, touches) => commit(test, deck, model, (count, touches)),
        Call::Handles(handles) => {
            let touches = touches_of(test, handles);
            commit(test, deck, model, (handles.len(), &touches))
        }
        Call::Checkpoint => checkpoint(test, deck, model, None),
        Call::Run(most) => checkpoint(test, deck, model, Some(most)),
        Call::Write(home, contents) => write(test, deck, model, home, contents),
    }
}

/// The oldest groups of a model go home, at most this many; how many that are.
fn go_home(model: &mut Model, most: usize) -> usize {
    let mut went: usize = 0;
    for _ in 0..most {
        if model.checkpoint() {
            went = went.saturating_add(1);
        }
    }
    went
}

/// Checkpoints the oldest transaction, or the oldest ones together, at most this many; how many that are.
fn checkpointed<D: Disk>(
    deck: &mut Deck<D>,
    most: Option<usize>,
) -> Result<usize, CheckpointFault> {
    match most {
        None => match deck.checkpoint_one() {
            Ok(_) => Ok(1),
            Err(fault) => Err(fault),
        },
        Some(most) => match deck.checkpoint_up_to(most) {
            Ok(run) => Ok(run.count),
            Err(fault) => Err(fault),
        },
    }
}

/// Checkpoints the oldest transaction, or the oldest ones together, at most this many; after a fault, what a crash may
/// leave.
fn checkpoint<D: Disk>(
    test: &impl Test,
    deck: &mut Deck<D>,
    model: &mut Model,
    most: Option<usize>,
) -> Option<Left> {
    let stood = model.standing();
    let went = go_home(model, most.unwrap_or(1));
    match checkpointed(deck, most) {
        Ok(count) if count == went && went > 0 => None,
        Err(CheckpointFault::Nothing) if went == 0 => None,
        Err(CheckpointFault::DeviceFault) if went > 0 => Some(only(stood)),
        _ => fail(test, "the checkpoint"),
    }
}

/// Writes these contents to a home; after a fault, what a crash may leave.
fn write<D: Disk>(
    test: &impl Test,
    deck: &mut Deck<D>,
    model: &mut Model,
    home: usize,
    number: u32,
) -> Option<Left> {
    let mut block = [0; 1024];
    fill(&mut block, number);
    let is = model.is_free(home);
    match deck.write_free(home as u64, &block) {
        Ok(()) if is => {
            model.write(home, number);
            None
        }
        Err(FreeFault::NotFree) if !is => None,
        Err(FreeFault::DeviceFault) if is => {
            let mut left = only(model.standing());
            left.torn = Some((home, number));
            Some(left)
        }
        _ => fail(test, "the written home"),
    }
}
