//! What a process that is killed may leave of an image that it makes.
ghost use Rattle.std.specs.Prelude.{◌≡◌};
ghost use Rattle.jb_image.specs.LeftDraft.{is_unused_front};

use jb_ext::FRONT;
use jb_super::Super;
use std::fs::File;
use std::os::unix::fs::FileExt;

/// How many bytes of block 0 a superblock has; all others of a new image are zeros.
const SUPER: u64 = 80;

/// How many bytes are read at once.
const PART: usize = 16384;

/// Whether a file holds no more than that: nothing, or zeros, or a superblock of a journal that has had no transaction
/// and then zeros. A file that cannot be read is another one. All of it is read.
pub(crate) fn is_left(file: &File) -> bool {
    let mut front = [0u8; FRONT];
    match file.read_at(&mut front, 0) {
        Ok(0) => true,
        Ok(FRONT) => (front == [0; FRONT] || is_unused(&front)) && has_zeros(file, SUPER),
        Ok(_) | Err(_) => false,
    }
}

/// Whether some first bytes are the superblock of a journal that has had no transaction.
fn is_unused(front: &[u8]) -> bool
    ensures { result ≡ is_unused_front front.now }
{
    match Super::read(front) {
        Ok(sb) => sb.start() == 0 && sb.sequence() == 1,
        Err(_) => false,
    }
}

/// Whether a file has zeros alone from this offset on.
fn has_zeros(file: &File, from: u64) -> bool {
    let mut part = [0u8; PART];
    let mut at = from;
    for _ in 0..u64::MAX {
        match file.read_at(&mut part, at) {
            Ok(0) => return true,
            Ok(read) => {
                if !part[..read].iter().all(|byte| *byte == 0) {
                    return false;
                }
                at = at.saturating_add(read as u64);
            }
            Err(_) => return false,
        }
    }
    false
}
