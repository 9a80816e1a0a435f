//! Handles of two blocks, each of which is waited for.
ghost use Rattle.std.specs.Prelude.{◌≡◌};
ghost use Rattle.jb_journal.specs.Client.{MayWait};
ghost use Rattle.jb_journal.specs.declared.options.Commits.TheVariants.{Meanwhile};

use crate::times::{Part, micros};
use jb_journal::{
    BlockSize, Client, Clock, Disk, Handle, JournalFault, Memory, Origin, Payload, TouchFault,
    Word, Worker,
};
use std::alloc::Global;
use std::sync::Wait;
use std::time;
use std::time::Instant;

/// The size of a block.
pub const SIZE: BlockSize = BlockSize::FourKib;

/// How many home blocks there are.
pub const HOMES: u64 = 1000;

/// Workers that change two home blocks by each handle, and wait until it is durable.
#[derive(Drop)]
pub struct Durable {
    /// How many handles each worker makes at most.
    pub handles: u64,
    /// After how many microseconds it makes no more.
    pub time: u64,
    pub alloc: Global,
    /// When all began; `None` where the clock cannot be read.
    pub start: Option<Instant>,
}

impl Worker<Result<Part, JournalFault>> for Durable {
    ghost use Rattle.jb_journal.specs.Client.{IsClient, when_committed};

    ghost needs = { λ _ commits. commits ≡ Meanwhile };

    fn work<'a, D: Disk, C: Clock, R: Wait + time::Clock, H: Origin>(
        &self,
        client: &mut Client<'a, D, C, R, H>,
        _workers: usize,
        at: usize,
    ) -> Result<Part, JournalFault>
        requires client { IsClient H.begun client.old }
        requires commits { when_committed client.old ≡ Meanwhile }
    {
        let rt = client.runtime();
        let mut draw = at as u64;
        let mut part = Part::new(self.alloc, since(rt, self.start));
        for number in 0..self.handles {
            let begun = since(rt, self.start);
            if begun >= self.time {
                break;
            }
            draw = drawn(draw);
            one_handle(client, draw, &word(self.alloc, number)?)?;
            part.add(begun, since(rt, self.start))?;
        }
        Ok(part)
    }
}

/// Changes two home blocks by a handle, and waits until that is durable.
fn one_handle<'a, D: Disk, C: Clock, R: Wait + time::Clock, H: Origin>(
    client: &mut Client<'a, D, C, R, H>,
    draw: u64,
    word: &Word,
) -> Result<(), JournalFault>
    requires { MayWait H.begun client.old }
    ensures { MayWait H.begun client.new }
{
    let (first, second) = ((draw >> 8) % HOMES, (draw >> 24) % HOMES);
    let (_, ticket) = client.change(2, |handle: &mut Handle<()>| -> Result<(), TouchFault> {
        handle.put(first, word)?;
        handle.put(second, word)
    })?;
    client.wait(ticket)?;
    Ok(())
}

/// What a handle leaves in a block: a number, and zeros after it.
fn word(alloc: Global, number: u64) -> Result<Word, Memory> {
    let front = number.to_be_bytes().to_vec(alloc)?;
    Ok(Word::Copy(Payload::padded(front, 4096)))
}

/// How many microseconds have gone by since then; the most that there can be where the clock cannot be read.
fn since(clock: &impl time::Clock, start: Option<Instant>) -> u64 {
    let Some(start) = start else {
        return u64::MAX;
    };
    match start.elapsed(clock) {
        Ok(time) => micros(time),
        Err(_) => u64::MAX,
    }
}

/// The number after one in a sequence that looks like chance (Knuth's MMIX).
fn drawn(draw: u64) -> u64 {
    draw.wrapping_mul(6_364_136_223_846_793_005)
        .wrapping_add(1_442_695_040_888_963_407)
}
