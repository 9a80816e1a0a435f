ghost use Rattle.std.specs.Prelude.{◌≡◌};

use jb_block::Memory;
use thiserror::Error;

/// What is wrong with a line of a queue text.
#[derive(Clone, Copy, Debug, PartialEq, Eq, Error)]
pub enum Cause {
    /// The first line is not `bs` and a block size, 1024, 2048 or 4096, with or without `wide` after it.
    #[error("the first line of a queue is `bs` and 1024, 2048 or 4096, and may end with `wide`")]
    BlockSizeLine,
    /// The second line is not `limit` and a number from 3 to 2147483646.
    #[error("the second line of a queue is `limit` and a number from 3 to 2147483646")]
    LimitLine,
    /// A further line is neither `h` nor begins with `h` and a space.
    #[error("a handle is `h` and its words, one space before each")]
    HandleLine,
    /// A word, up to its first `=`, is not `w` or `r` and the number of a home block; or an `r` word has an `=`.
    #[error("a word is `w` or `r` and the number of a home block, and data may follow a `w` word alone")]
    OpWord,
    /// The part after the `=` of a `w` word is not the hexadecimal text of 1 byte up to a block's.
    #[error("the data after `=` is two hexadecimal digits for each byte, of 1 byte up to a block's")]
    DataWord,
    /// There was no memory for what the line says.
    #[error("out of memory; read the text again")]
    Memory,
}

impl From<Memory> for Cause {
    ghost use Rattle.jb_queue.specs.declared.fault.Cause.TheVariants.{Memory as OutOfMemory};

    ghost from_gives = { λ _ cause. cause ≡ OutOfMemory };

    fn from(_refused: Memory) -> Cause {
        Cause::Memory
    }
}

/// The first fault of a queue text.
#[derive(Clone, Copy, Debug, PartialEq, Eq, Error)]
#[error("line {line}: {cause}")]
pub struct QueueFault {
    /// The line with the fault, counted from 1.
    pub line: u64,
    /// What is wrong with it.
    pub cause: Cause,
}
