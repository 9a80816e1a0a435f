//! The other name of a file that is made: `.jb-unfinished` after its own.
use crate::fault::ImageFault;
use std::fs::{File, Metadata};
use std::os::unix::fs::MetadataExt;
use std::rt::Files;
use std::{fs, io};

/// What the other name has after the file's own.
const SUFFIX: &str = ".jb-unfinished";

/// The name under which a file is made.
pub(crate) fn draft_name<R: AllocGlobal>(rt: &R, name: &str) -> Result<String, ImageFault> {
    let mut draft = String::from_str(rt.alloc(), name)?;
    draft.push_str(SUFFIX)?;
    Ok(draft)
}

/// Takes the other name from a file of this name, where it has that too: a process was killed after it had given the
/// file its own.
///
/// # Errors
/// `Memory` where memory ran out.
pub(crate) fn forget<R: Files<File = File> + AllocGlobal>(
    rt: &R,
    name: &str,
    file: &File,
) -> Result<(), ImageFault> {
    let draft = draft_name(rt, name)?;
    remove(rt, &draft, &file.metadata());
    Ok(())
}

/// Removes the file of this name, where it is still this one.
pub(crate) fn remove<R: Files>(rt: &R, name: &str, made: &io::Result<Metadata>) {
    if is_named(rt, name, made) {
        let _ignored = fs::remove_file(rt, name);
    }
}

/// Whether a file has this name.
pub(crate) fn is_named<R: Files>(rt: &R, name: &str, made: &io::Result<Metadata>) -> bool {
    let (Ok(made), Ok(named)) = (made, fs::symlink_metadata(rt, name)) else {
        return false;
    };
    made.dev() == named.dev() && made.ino() == named.ino()
}
