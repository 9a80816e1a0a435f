//! Files that are made under another name, and get their own when they are whole.
//!
//! Whoever has the lock of the file that has the other name may remove it, give it the image's name, or leave it; so of
//! several that make one image at a time one goes on. A file of the other name with more in it than a killed process
//! may leave is another one's, and stays.
use crate::fault::{ImageFault, MakeFault};
use crate::left::is_left;
use crate::opening::{Opening, lock};
use crate::refusals::link_fault;
use crate::unfinished::{draft_name, is_named, remove};
use std::fs;
use std::fs::{File, OpenOptions};
use std::io::ErrorKind;
use std::rt::Files;

/// How often a file that a killed process has left is removed, before another one is taken to be at work.
const TRIES: usize = 8;

/// A file that is made, and locked.
#[derive(Drop)]
pub(crate) struct Draft<'a> {
    /// The name that it is to get.
    name: &'a str,
    /// The name that it has.
    draft: String,
    /// The folder of both.
    folder: File,
    /// The file, which is locked for as long as this is there.
    file: File,
}

impl<'a> Draft<'a> {
    ghost use Rattle.std.specs.Prelude.{◌≡◌, IfErr};
    ghost use Rattle.jb_image.specs.declared.fault.MakeFault.TheVariants.{Device, DeviceFault, Geometry as NoGeometry};
    ghost use Rattle.jb_disk.specs.declared.failure.Failure.{Failure};

    /// A new file that is to get this name, with its first handle. It is empty.
    ///
    /// # Errors
    /// `Exists` where there is a file of the name; `Image` with `InUse` where another process makes one, and with
    /// `System` or `Memory` where the system refuses a call or memory ran out.
    pub fn begin<R: Files<File = File> + AllocGlobal>(
        rt: &R,
        name: &'a str,
    ) -> Result<Draft<'a>, MakeFault>
        ensures only { IfErr result (λ fault. (fault ≡ NoGeometry → ⊥) × (fault ≡ DeviceFault → ⊥)
            × ((failure : Failure) → fault ≡ Device failure → ⊥)) }
    {
        if is_there(rt, name)? {
            return Err(MakeFault::Exists);
        }
        let folder = match File::open(rt, folder_of(name)) {
            Ok(folder) => folder,
            Err(error) => return Err(MakeFault::Image(error.into())),
        };
        let draft = draft_name(rt, name)?;
        let file = make_draft(rt, &draft)?;
        Ok(Draft {
            name,
            draft,
            folder,
            file,
        })
    }

    /// A second handle of the file, which shares its lock.
    ///
    /// # Errors
    /// `System` where the system gives none.
    pub fn handle(&self) -> Result<File, ImageFault> {
        Ok(self.file.try_clone()?)
    }

    /// Gives the file the name that it was made for, which survives a crash then. A file that has come by this name
    /// meanwhile stays as it is: so a link is made, and no rename, which would replace it.
    ///
    /// # Errors
    /// `Exists` where there is a file of the name; `NoLinks` where the file system has no links; `Image` with `System`
    /// where the system refuses a call. The name is not given then.
    pub fn publish<R: Files>(&self, rt: &R) -> Result<(), MakeFault>
        ensures only { IfErr result (λ fault. (fault ≡ NoGeometry → ⊥) × (fault ≡ DeviceFault → ⊥)
            × ((failure : Failure) → fault ≡ Device failure → ⊥)) }
    {
        match fs::hard_link(rt, self.draft.as_str(), self.name) {
            Ok(()) => {}
            Err(error) => return Err(link_fault(error)),
        }
        match self.folder.sync_all() {
            Ok(()) => {
                remove(rt, &self.draft, &self.file.metadata());
                Ok(())
            }
            Err(error) => {
                remove(rt, self.name, &self.file.metadata());
                Err(MakeFault::Image(error.into()))
            }
        }
    }

    /// Removes the file.
    pub fn discard<R: Files>(&self, rt: &R) {
        remove(rt, &self.draft, &self.file.metadata());
    }
}

/// Whether there is a file of this name; a link that leads nowhere is one.
fn is_there<R: Files>(rt: &R, name: &str) -> Result<bool, ImageFault> {
    match fs::symlink_metadata(rt, name) {
        Ok(_) => Ok(true),
        Err(error) if error.kind() == ErrorKind::NotFound => Ok(false),
        Err(error) => Err(error.into()),
    }
}

/// The folder of the file of this name.
fn folder_of(name: &str) -> &str {
    match name.rsplit_once('/') {
        None => ".",
        Some(("", _)) => "/",
        Some((folder, _)) => folder,
    }
}

/// A new file of this name, locked. One that a killed process has left is removed first.
///
/// # Errors
/// `InUse` where another process has locked a file of the name; `System` where the system refuses a call, and with its
/// number for a file that is there already (`EEXIST`) where one of the name is none that a killed process leaves.
fn make_draft<R: Files<File = File>>(rt: &R, draft: &str) -> Result<File, ImageFault> {
    for _ in 0..TRIES {
        match File::create_new(rt, draft) {
            Ok(file) => return locked_as(rt, file, draft),
            Err(error) if error.kind() == ErrorKind::AlreadyExists => {
                if !remove_left(rt, draft)? {
                    return Err(error.into());
                }
            }
            Err(error) => return Err(error.into()),
        }
    }
    Err(ImageFault::InUse)
}

/// Removes what a killed process has left, and says whether there was nothing else of the name. Any other file stays.
///
/// # Errors
/// `InUse` where a process has locked it: it is at work; `System` where the system refuses a call.
fn remove_left<R: Files<File = File>>(rt: &R, draft: &str) -> Result<bool, ImageFault> {
    match fs::symlink_metadata(rt, draft) {
        Ok(found) if found.is_file() => {}
        // one of another kind is not even opened: that may wait, or wake another program
        Ok(_) => return Ok(false),
        // its maker has given it its name
        Err(error) if error.kind() == ErrorKind::NotFound => return Ok(true),
        Err(error) => return Err(error.into()),
    }
    let file = match OpenOptions::new().read(true).write(true).open(rt, draft) {
        Ok(file) => file,
        Err(error) if error.kind() == ErrorKind::NotFound => return Ok(true),
        Err(error) => return Err(error.into()),
    };
    lock(&file, Opening::Change)?;
    if !is_left(&file) {
        return Ok(false);
    }
    if is_named(rt, draft, &file.metadata()) {
        fs::remove_file(rt, draft)?;
    }
    Ok(true)
}

/// A new file, locked, where it has this name still.
///
/// # Errors
/// `InUse` where another process has locked it, or has removed it; those of [`lock`], and the file is removed then.
fn locked_as<R: Files>(rt: &R, file: File, name: &str) -> Result<File, ImageFault> {
    match lock(&file, Opening::Change) {
        Ok(()) if is_named(rt, name, &file.metadata()) => Ok(file),
        Ok(()) | Err(ImageFault::InUse) => Err(ImageFault::InUse),
        Err(fault) => {
            remove(rt, name, &file.metadata());
            Err(fault)
        }
    }
}
