//! Two files that are opened as one disk and recovered.
ghost use Rattle.std.specs.Prelude.{◌++◌, IfOk, OnOk};
ghost use Rattle.jb_block.specs.Size.{bytes_of};
ghost use Rattle.jb_disk.specs.Image.{Image, Only};
ghost use Rattle.proof_clients.specs.Files.{files_content, files_count, files_faults, AreHonestFiles, FilesLeave};
ghost use Rattle.proof_clients.specs.Files.{FilesLeft};
ghost use Rattle.jb_recover.specs.Outcomes.{RecoversAs};
ghost use Rattle.jb_recover.specs.Passes.{PassFaults};
ghost use Rattle.jb_recover.specs.Recovers.{Recovers};

use jb_block::BlockSize;
use jb_disk::{Fault, FileDisk, Start};
use jb_image::PairDisk;
use jb_recover::{RecoverFault, Recovered, recover};
use std::alloc::Global;
use std::fs::File;

/// Recovers the journal in one file to the home blocks in another, and gives the two back as a disk, with the answer.
/// If both are honest and held what `S` and `T` say, they hold the recovered image of that then; a crash at any call of
/// either left something that recovers to the same, as they do themselves after a fault; and after `Ok` nothing is
/// pending.
///
/// # Errors
///
/// A fault where a file cannot be opened as a disk; nothing is recovered then.
pub fn recover_files<S: Start, T: Start>(
    alloc: Global,
    journal: File,
    homes: File,
    size: BlockSize,
) -> Result<
    (
        PairDisk<FileDisk<S>, FileDisk<T>>,
        Result<Recovered, RecoverFault>,
    ),
    Fault,
>
    /// Whatever the files do, the count of their faults is that of the answer.
    ensures faults { IfOk result (λ ran. PassFaults ran.1 0 (files_faults ran.0)) }
    /// With `again`, `durable`: Two files are opened as one disk and recovered: if their answers were those of honest
    /// files that held what `S` and `T` say, they hold the recovered image of that after `Ok`, and nothing is pending,
    /// or what the answer says of a refusal. Recovered again they hold the same, after any answer.
    ensures recovers { IfOk result (λ ran. AreHonestFiles ran.0
        → Recovers (bytes_of size) (files_count ran.0) (S.content 0 ++ T.content 0) (files_content ran.0) ran.1) }
    /// If both files are honest, a crash at any call of either left something that recovers to the same image.
    ensures crash { IfOk result (λ ran. AreHonestFiles ran.0 → (c : Image) → FilesLeft ran.0 0 c
        → RecoversAs (bytes_of size) (files_count ran.0) (S.content 0 ++ T.content 0) c) }
    ensures again { IfOk result (λ ran. AreHonestFiles ran.0
        → RecoversAs (bytes_of size) (files_count ran.0) (S.content 0 ++ T.content 0) (files_content ran.0)) }
    ensures durable { IfOk result (λ ran. AreHonestFiles ran.0
        → OnOk ran.1 (Only (files_content ran.0) (FilesLeave ran.0))) }
{
    let front = FileDisk::<S>::holding(journal, size)?;
    let back = FileDisk::<T>::holding(homes, size)?;
    let mut disk = PairDisk::of(front, back);
    let answer = recover(alloc, &mut disk);
    Ok((disk, answer))
}
