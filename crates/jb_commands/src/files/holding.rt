//! Who has a file that is in use, in words, where the system says it.

use crate::files::holders::{locking_process, mount_point};
use crate::streams::put_shown;
use arrayvec::ArrayVec;
use jb_args::{HOLDER_TEXT, Holder};
use jb_text::{part, put, put_parts};
use std::fs;
use std::fs::File;
use std::rt::Files;

/// Where the block device of this name is mounted.
pub(crate) fn mount_of<R: Files<File = File> + AllocGlobal>(rt: &R, name: &str) -> Option<Holder> {
    let point = mount_point(rt, name)?;
    words_of(&["mounted at "], point.as_slice(), "")
}

/// Which process has locked the file of this name, and what that runs; `None` where it has ended.
pub(crate) fn locker_of<R: Files<File = File> + AllocGlobal>(rt: &R, name: &str) -> Option<Holder> {
    let process = locking_process(rt, name)?;
    let digits = format!(in rt.alloc(); "{process}").ok()?;
    let place = format!(in rt.alloc(); "/proc/{process}/comm").ok()?;
    let command = fs::read(rt, place.as_str()).ok()?;
    let (command, _) = part(command.as_slice(), b'\n');
    words_of(&["locked by process ", digits.as_str(), " ("], command, ")")
}

/// A holder of these words, this name as it is shown, and these words behind it.
fn words_of(words: &[&str], name: &[u8], behind: &str) -> Option<Holder> {
    let mut text: ArrayVec<u8, HOLDER_TEXT> = ArrayVec::new();
    put_parts(&mut text, words).ok()?;
    put_shown(&mut text, name).ok()?;
    put(&mut text, behind.as_bytes()).ok()?;
    Holder::new(text.as_slice())
}
