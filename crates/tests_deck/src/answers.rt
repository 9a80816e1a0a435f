//! What calls of a journal answer that take no batch.

use crate::scripts::{Run, Step, Told, are};
use jb_deck::{Checked, CheckpointFault, Deck, FreeFault};
use jb_disk::Disk;
use tests_support::put_words;

/// Whether this many bytes, at most a block, that are written to a home are answered so.
pub fn writes<D: Disk>(
    deck: &mut Deck<D>,
    home: u64,
    len: usize,
    answer: Result<(), FreeFault>,
) -> bool {
    let mut bytes = [0; 1024];
    put_words(&mut bytes, 0, &[0x7777_7777; 4]);
    deck.write_free(home, &bytes[..len.min(1024)]) == answer
}

/// Whether the oldest transactions, at most this many, are checkpointed so.
pub fn runs<D: Disk>(
    deck: &mut Deck<D>,
    most: usize,
    answer: Result<Run, CheckpointFault>,
) -> bool {
    let told = match deck.checkpoint_up_to(most) {
        Ok(run) => Ok((run.count, run.last, run.blocks)),
        Err(fault) => Err(fault),
    };
    told == answer
}

/// Whether the entries that are taken from the trail are these.
pub fn takes<D: Disk>(deck: &mut Deck<D>, past: u64, entries: &[Told]) -> bool {
    match deck.take_trail(past) {
        Ok(taken) => are(&taken, entries),
        Err(_) => false,
    }
}

/// Whether the oldest transaction is checkpointed so.
pub fn checkpoints<D: Disk>(deck: &mut Deck<D>, answer: Result<Checked, CheckpointFault>) -> bool {
    deck.checkpoint_one() == answer
}

/// Whether the last word on a home is this one.
fn has_word<D: Disk>(deck: &Deck<D>, home: u64, copy: Option<bool>) -> bool {
    match deck.word_of(home) {
        Some(word) => copy == Some(word.is_copy()),
        None => copy.is_none(),
    }
}

/// Whether a journal says this of itself.
pub fn tells<D: Disk>(deck: &Deck<D>, step: &Step) -> bool {
    match *step {
        Step::Word(home, copy) => has_word(deck, home, copy),
        Step::Ends(trail, next) => are(deck.trail(), trail) && deck.next_number() == next,
        Step::Aborted => deck.aborted(),
        _ => false,
    }
}
