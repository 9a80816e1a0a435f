//! A file of the operating system as a disk.
ghost use Rattle.std.specs.Prelude.{◌≡◌, ◌<◌, ◌*◌, ◌/◌, ◌^◌, [], ◌∷◌, length, is_ok, IfOk, None, Some};
ghost use Rattle.jb_block.specs.Size.{bytes_of};
ghost use Rattle.jb_disk.specs.Failures.{told_after};
ghost use Rattle.jb_disk.specs.Faults.{CountsFault, CountsOne};
ghost use Rattle.jb_disk.specs.Lives.{bytes_are_block_size};

use crate::host::Host;
use crate::{Disk, FailedCall, Failure, FailureReason, Fault, Start, Unknown};
use jb_block::BlockSize;
use std::fs::File;
use std::marker::PhantomData;

/// An open file, or a block device, as a disk. Its blocks are the whole blocks of the length that it
/// had when it was made a disk; bytes after them are neither read nor written.
///
/// A read or write makes one call of the system. One that a signal interrupts, or that moves less
/// than a block, is a fault: it is not tried again. A sync that a signal interrupts is tried again,
/// by the library. After a sync that failed the file has to be opened anew, by a program that is started
/// anew: the system may have dropped what was written, and call the next sync a success.
///
/// `S` is what is supposed of the file. A program that supposes nothing writes `FileDisk` alone.
#[derive(Drop)]
pub struct FileDisk<S: Start = Unknown> {
    host: Host,
    size: BlockSize,
    blocks: u64,
    faults: u64,
    /// The last call that failed.
    failed: Option<Failure>,
    start: PhantomData<S>,
    ghost addressed: { blocks * bytes_of size < 2 ^ 64 },
}

impl FileDisk {
    ghost use Rattle.jb_disk.specs.File.{size_of_blocks, failure_of, faults_of, IsMeasured};

    /// The disk that `file` is, in blocks of this size; a part of a block at its end is left out.
    /// Its length is the place of its end: of a block device the metadata say 0.
    ///
    /// # Errors
    ///
    /// A fault where the system does not give the file's end.
    pub fn of(file: File, size: BlockSize) -> Result<FileDisk, Fault>
        ensures size { IfOk result (λ disk. size_of_blocks disk ≡ size) }
        ensures fresh { IfOk result (λ disk. (faults_of disk ≡ 0) × (failure_of disk ≡ None)) }
        ensures opened { IfOk result IsMeasured }
    {
        FileDisk::holding(file, size)
    }
}

impl<S: Start> FileDisk<S> {
    ghost use Rattle.jb_disk.specs.File.{size_of_blocks, failure_of, faults_of, IsMeasured};

    /// The same, of a file that is supposed to hold what `S` says.
    ///
    /// # Errors
    ///
    /// A fault where the system does not give the file's end.
    pub fn holding(file: File, size: BlockSize) -> Result<FileDisk<S>, Fault>
        ensures size { IfOk result (λ disk. size_of_blocks disk ≡ size) }
        ensures fresh { IfOk result (λ disk. (faults_of disk ≡ 0) × (failure_of disk ≡ None)) }
        /// A file that is made a disk was asked its length and nothing else, and the disk has its whole blocks. From
        /// then on it is an honest disk where the record of its calls is that of an honest file
        /// ([`IsHonest`](crates/jb_disk/specs/File.antt)).
        ensures opened { IfOk result IsMeasured }
    {
        let Ok((host, len)) = Host::of(file) else {
            return Err(Fault);
        };
        Ok(FileDisk {
            host,
            size,
            blocks: whole_blocks(len, size),
            faults: 0,
            failed: None,
            start: PhantomData,
        })
    }
}

/// It is an honest disk where its answers so far are those of an honest file that held what `S` says. The record of
/// its calls has them, for clauses alone: no code can know it.
impl<S: Start> Disk for FileDisk<S> {
    ghost use Rattle.jb_disk.specs.File.{IsHonest, content_of, failure_of, FileLeaves, FileLeft, IsOneCall};
    ghost use Rattle.jb_disk.specs.File.{IsWellAsked, MayGoOn};
    ghost use Rattle.jb_disk.specs.RecordLaws.{newest_left, left_shape, from_shape, left_from_now, left_from_only};

    ghost size = { λ f. bytes_of f.size };

    ghost count = { λ f. f.blocks };

    ghost faults = { λ f. f.faults };

    ghost honest = { IsHonest };

    ghost newest = { content_of };

    ghost may_leave = { FileLeaves };

    ghost moment = { λ f. length f.host.log.events };

    ghost left_since = { FileLeft };

    ghost may_go_on = { MayGoOn };

    ghost well_asked = { IsWellAsked };

    ghost own = { IsOneCall };

    ghost tells = { λ f failure. f.failed ≡ Some failure };

    ghost has_size = { λ f. bytes_are_block_size f.size };

    ghost newest_may_stay = { λ f honest.
        newest_left f.blocks (bytes_of f.size) S.content honest.0 f.host.log.events honest.1 };

    ghost has_shape = { λ f c honest left.
        left_shape f.blocks (bytes_of f.size) S.content honest.0 f.host.log.events c left };

    ghost has_shape_since = { λ f t c honest left.
        from_shape f.blocks (bytes_of f.size) S.content honest.0 f.host.log.events t c left };

    ghost counts_now = { λ f t c _ earlier left.
        left_from_now (bytes_of f.size) S.content f.host.log.events t c earlier left };

    ghost only_now = { λ f c _ left. left_from_only (bytes_of f.size) S.content f.host.log.events c left };

    fn block_size(&self) -> BlockSize {
        self.size
    }

    fn blocks(&self) -> u64 {
        self.blocks
    }

    fn failure(&self) -> Option<Failure>
        ensures { result ≡ failure_of self.now }
    {
        self.failed
    }

    fn read(&mut self, place: u64, buf: &mut [u8]) -> Result<(), Fault> {
        let at = offset_of(place, self.size);
        let answer = self.host.read_at(at, buf);
        settle(
            answer,
            FailedCall::Read(place),
            &mut self.faults,
            &mut self.failed,
        )
    }

    fn read_run(&mut self, place: u64, _blocks: usize, buf: &mut [u8]) -> Result<(), Fault> {
        let at = offset_of(place, self.size);
        let answer = self.host.read_at(at, buf);
        settle(
            answer,
            FailedCall::Read(place),
            &mut self.faults,
            &mut self.failed,
        )
    }

    fn write(&mut self, place: u64, bytes: &[u8]) -> Result<(), Fault> {
        let at = offset_of(place, self.size);
        let answer = self.host.write_at(at, bytes);
        settle(
            answer,
            FailedCall::Write(place),
            &mut self.faults,
            &mut self.failed,
        )
    }

    fn write_run(&mut self, place: u64, _blocks: usize, bytes: &[u8]) -> Result<(), Fault> {
        let at = offset_of(place, self.size);
        let answer = self.host.write_at(at, bytes);
        settle(
            answer,
            FailedCall::Write(place),
            &mut self.faults,
            &mut self.failed,
        )
    }

    fn sync(&mut self) -> Result<(), Fault> {
        let answer = self.host.sync();
        settle(answer, FailedCall::Sync, &mut self.faults, &mut self.failed)
    }
}

/// The offset in bytes of the block at this place.
fn offset_of(place: u64, size: BlockSize) -> u64
    requires { place * bytes_of size < 2 ^ 64 }
    ensures { result ≡ place * bytes_of size }
{
    place * u64::from(size.bytes())
}

/// How many whole blocks this many bytes have.
fn whole_blocks(len: u64, size: BlockSize) -> u64
    ensures value { result ≡ len / bytes_of size }
    ensures addressed { result * bytes_of size < 2 ^ 64 }
{
    len / u64::from(size.bytes())
}

/// Counts a fault where the call did not succeed, and keeps why.
fn settle(
    answer: Result<(), FailureReason>,
    call: FailedCall,
    faults: &mut u64,
    failed: &mut Option<Failure>,
) -> Result<(), Fault>
    ensures variant { is_ok result ≡ is_ok answer }
    ensures faults { CountsFault result faults.old faults.new }
    ensures one { CountsOne (is_ok answer) faults.old faults.new }
    ensures told { failed.new ≡ told_after call answer failed.old }
{
    let Err(reason) = answer else {
        return Ok(());
    };
    *faults = faults.saturating_add(1);
    *failed = Some(Failure { call, reason });
    Err(Fault)
}
