//! One word of a queue text: `w5`, `w5=c03b`, `r5`.

ghost use Rattle.std.specs.Prelude.{◌≡◌, ◌<◌, ◌≤◌, ◌/◌, length, IsOk, Err};
ghost use Rattle.hex.specs.Hex.{decode_of};
ghost use Rattle.jb_block.specs.Size.{bytes_of};
ghost use Rattle.jb_queue.specs.declared.fault.Cause.TheVariants.{Memory as OutOfMemory};
ghost use Rattle.jb_queue.specs.Queue.{Gives, home_named, data_in_word, decoded_block, op_of};

use crate::digits::decode;
use crate::fault::Cause;
use jb_block::{BlockSize, MOST_BYTES};
use jb_handle::{Payload, Word};
use jb_text::{number, part};
use std::alloc::Global;

/// The home block that a word of a handle's line names, and the word that it leaves there; or the cause for
/// which it is no such word. The whole word is judged before a copy of its bytes is kept.
pub fn read_op(alloc: Global, text: &[u8], bs: BlockSize) -> Result<(u64, Word), Cause>
    ensures gives { Gives result (op_of (bytes_of bs) text.now) }
    ensures judged { result ≡ Err OutOfMemory → IsOk (op_of (bytes_of bs) text.now) }
{
    match text {
        [b'w', rest @ ..] => {
            let (digits, data) = part(rest, b'=');
            let home = read_home(digits)?;
            let payload = read_payload(alloc, data, bs)?;
            Ok((home, Word::Copy(payload)))
        }
        [b'r', digits @ ..] => {
            let home = read_home(digits)?;
            Ok((home, Word::Free))
        }
        _ => Err(Cause::OpWord),
    }
}

/// The home block that digits name.
fn read_home(digits: &[u8]) -> Result<u64, Cause>
    ensures { result ≡ home_named digits.now }
{
    match number(digits) {
        Some(home) => Ok(home),
        None => Err(Cause::OpWord),
    }
}

/// The block that the part of a word from its `=` on writes; zeros where the word has none.
fn read_payload(alloc: Global, text: &[u8], bs: BlockSize) -> Result<Payload, Cause>
    ensures gives { Gives result (data_in_word (bytes_of bs) text.now) }
    ensures judged { result ≡ Err OutOfMemory → IsOk (data_in_word (bytes_of bs) text.now) }
{
    let size = bs.bytes() as usize;
    let [_, digits @ ..] = text else {
        return Ok(Payload::padded(Vec::new(alloc), size));
    };
    let len = digits.len() / 2;
    if len == 0 || len > size {
        return Err(Cause::DataWord);
    }
    let mut most = [0; MOST_BYTES];
    read_digits(alloc, digits, &mut most[..len], size)
}

/// A block of `size` bytes that begins with those of digits, for which there is room in `front`: a copy of them is
/// kept where all are digits.
fn read_digits(
    alloc: Global,
    digits: &[u8],
    front: &mut [u8],
    size: usize,
) -> Result<Payload, Cause>
    requires some { 0 < length front.old }
    requires within { length front.old ≤ size }
    requires half { length digits.now / 2 ≡ length front.old }
    ensures gives { Gives result (decoded_block size (decode_of digits.now)) }
    ensures judged { result ≡ Err OutOfMemory → IsOk (decoded_block size (decode_of digits.now)) }
{
    if !decode(digits, front) {
        return Err(Cause::DataWord);
    }
    let Ok(bytes) = front.to_vec(alloc) else {
        return Err(Cause::Memory);
    };
    Ok(Payload::padded(bytes, size))
}
