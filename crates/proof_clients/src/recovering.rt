//! A file that is opened as a disk and recovered.
ghost use Rattle.std.specs.Prelude.{◌≡◌, ◌⊎◌, IfOk, OnOk};
ghost use Rattle.jb_block.specs.Size.{bytes_of};
ghost use Rattle.jb_disk.specs.File.{content_of, count_of, faults_of, size_of_blocks};
ghost use Rattle.jb_disk.specs.File.{FileLeaves, FileLeft, IsHonest};
ghost use Rattle.jb_disk.specs.Image.{Image, Only};
ghost use Rattle.jb_recover.specs.Outcomes.{RecoversAs};
ghost use Rattle.jb_recover.specs.Passes.{PassFaults};
ghost use Rattle.jb_recover.specs.Recovers.{Recovers};

use jb_block::BlockSize;
use jb_disk::{Fault, FileDisk, Start};
use jb_recover::{RecoverFault, Recovered, recover};
use std::alloc::Global;
use std::fs::File;

/// Recovers the journal in a file, and gives the file back as a disk, with the answer. If the file is honest and held
/// what `S` says, it holds the recovered image of that then; a crash at any call left it as it was, or something that
/// recovers to the same, as it does itself after a fault; and after `Ok` nothing is pending.
///
/// # Errors
///
/// A fault where the file cannot be opened as a disk; nothing is recovered then.
pub fn recover_file<S: Start>(
    alloc: Global,
    file: File,
    size: BlockSize,
) -> Result<(FileDisk<S>, Result<Recovered, RecoverFault>), Fault>
    ensures size { IfOk result (λ ran. size_of_blocks ran.0 ≡ size) }
    /// Whatever the file does, the count of its faults is that of the answer.
    ensures faults { IfOk result (λ ran. PassFaults ran.1 0 (faults_of ran.0)) }
    /// A file is opened and recovered: if its answers were those of an honest file that held what `S` says, it holds
    /// the recovered image of that after `Ok`, or what the answer says of a refusal.
    ensures recovers { IfOk result (λ ran. IsHonest ran.0
        → Recovers (bytes_of size) (count_of ran.0) (S.content 0) (content_of ran.0) ran.1) }
    /// With `settled`, `again`, `durable`: If the file is honest, a crash at any call left it as it was, or something
    /// that recovers to the same image, as it does itself after any answer; after `Ok` nothing is pending.
    ensures crash { IfOk result (λ ran. IsHonest ran.0 → (c : Image) → FileLeft ran.0 0 c
        → (c ≡ S.content 0) ⊎ RecoversAs (bytes_of size) (count_of ran.0) (S.content 0) c) }
    ensures settled { IfOk result (λ ran. IsHonest ran.0 → (c : Image) → FileLeft ran.0 1 c
        → RecoversAs (bytes_of size) (count_of ran.0) (S.content 0) c) }
    ensures again { IfOk result (λ ran. IsHonest ran.0
        → RecoversAs (bytes_of size) (count_of ran.0) (S.content 0) (content_of ran.0)) }
    ensures durable { IfOk result (λ ran. IsHonest ran.0 → OnOk ran.1 (Only (content_of ran.0) (FileLeaves ran.0))) }
{
    let mut disk = FileDisk::<S>::holding(file, size)?;
    let answer = recover(alloc, &mut disk);
    Ok((disk, answer))
}
