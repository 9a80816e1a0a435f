ghost use Rattle.std.specs.Prelude.{◌<◌, ◌≤◌, ◌≡◌, ◌≢◌, Err, IfOk, IfSome, length, take};

use std::alloc::Global;
use std::io::{ErrorKind, Read};
use thiserror::Error;

/// Why a text could not be read.
#[derive(Clone, Copy, Debug, PartialEq, Eq, Error)]
pub enum ReadFault {
    /// The reader answered an error, with the system's number of it where it has one.
    #[error("the text could not be read")]
    Reader(Option<i32>),
    /// There are more bytes than the limit.
    #[error("the text is longer than may be read; give a shorter one")]
    TooLong,
    /// Memory ran out.
    #[error("out of memory; read the text again")]
    Memory,
}

/// The first bytes of a reader: `limit` of them, or all where it has fewer. No more are read.
///
/// # Errors
/// `Reader` where a read failed, `Memory` where memory ran out.
pub fn read_front<R: Read>(
    alloc: Global,
    reader: &mut R,
    limit: usize,
) -> Result<Vec<u8>, ReadFault>
    requires { limit ≤ 4294967296 }
    ensures front { IfOk result (λ front. IfSome (R.remaining reader.old) (λ bytes. front.items ≡ take limit bytes)) }
    ensures cut { result ≢ Err ReadFault.TooLong }
{
    let mut front = Vec::new(alloc);
    let mut limited = reader.take(limit as u64);
    match limited.read_to_end(&mut front) {
        Ok(_) => Ok(front),
        Err(error) if error.kind() == ErrorKind::OutOfMemory => Err(ReadFault::Memory),
        Err(error) => Err(ReadFault::Reader(error.raw_os_error())),
    }
}

/// The whole of a reader, where it has at most `limit` bytes; of a longer one, no more than one byte past the limit is
/// read.
///
/// # Errors
/// `Reader` where a read failed, `TooLong` where there are more bytes than `limit`, `Memory` where memory ran out.
pub fn read_within<R: Read>(
    alloc: Global,
    reader: &mut R,
    limit: usize,
) -> Result<Vec<u8>, ReadFault>
    requires { limit < 4294967296 }
    ensures all { IfOk result (λ text. IfSome (R.remaining reader.old) (λ bytes. text.items ≡ bytes)) }
    ensures within { IfOk result (λ text. length text.items ≤ limit) }
    ensures too_long { result ≡ Err ReadFault.TooLong
        → IfSome (R.remaining reader.old) (λ bytes. limit < length bytes) }
{
    let text = read_front(alloc, reader, limit + 1)?;
    if text.len() <= limit {
        Ok(text)
    } else {
        Err(ReadFault::TooLong)
    }
}
