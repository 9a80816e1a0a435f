//! The superblock of a journal within an image, at the first block of its extents.
ghost use Rattle.std.specs.Prelude.{◌≡◌, Err, IfErr, IfOk, None, Some};
ghost use Rattle.jb_super.specs.Checked.{read_as};
ghost use Rattle.jb_commands.specs.Files.{SaysSuper};
ghost use Rattle.jb_commands.specs.FoundWithin.{IsFoundWithin, IsNotFound, IsNotRead, IsReadOf, IsSaid, IsSaidSo};
ghost use Rattle.jb_commands.specs.FoundWithin.{IsTry, super_chosen, of_sizes, try_of, try_refused, with_try};

use crate::files::opening::front_of;
use crate::files::shut::{FileFault, WithinFault};
use jb_block::BlockSize;
use jb_image::{ExtentsFault, FileSystem, FileSystemFault};
use jb_super::{Checksums, Super, SuperFault};
use std::alloc::Global;
use std::io::{Read, Seek, SeekFrom};

/// Where a file system of ext2, ext3 or ext4 has its superblock.
const SYSTEM_AT: u64 = 1024;

/// The superblock of a journal that a file has at this block, which has checksums only where these are allowed. Where
/// the file has the superblock of ext2, ext3 or ext4, the block has its size; else each size is tried.
///
/// # Errors
/// `WithinFault::File` where the file cannot be read, memory ran out, or no superblock is taken and one is refused: the
/// first in the order of the sizes; `WithinFault::System` where the file system's blocks have a size that a journal's
/// cannot have; `WithinFault::Extents` with `NoJournal` where there is no superblock, and with `BlockSizes` where there
/// are two.
pub(crate) fn super_within<R: Read + Seek>(
    alloc: Global,
    file: &mut R,
    first: u64,
    sums: Checksums,
) -> Result<Super, WithinFault>
    ensures shut { IfErr result IsNotFound }
    ensures found { IfOk result IsFoundWithin }
{
    match system_of(alloc, file) {
        Ok(Some(system)) => super_of_system(alloc, file, first, system, sums),
        Ok(None) => super_of_sizes(alloc, file, first, sums),
        Err(fault) => Err(WithinFault::File(fault)),
    }
}

/// The file system of ext2, ext3 or ext4 that a file has, if any.
pub(crate) fn system_of<R: Read + Seek>(
    alloc: Global,
    file: &mut R,
) -> Result<Option<FileSystem>, FileFault>
    ensures shut { IfErr result IsNotRead }
    ensures read { IfOk result IsReadOf }
{
    if file.seek(SeekFrom::Start(SYSTEM_AT)).is_err() {
        return Err(FileFault::Unread(None));
    }
    match front_of(alloc, file) {
        Ok(front) => Ok(FileSystem::read(front.as_slice())),
        Err(fault) => Err(fault),
    }
}

/// The superblock that a file has at this block of this file system.
fn super_of_system<R: Read + Seek>(
    alloc: Global,
    file: &mut R,
    first: u64,
    system: FileSystem,
    sums: Checksums,
) -> Result<Super, WithinFault>
    requires read { IsReadOf (Some system) }
    ensures shut { IfErr result IsNotFound }
    ensures found { IfOk result IsFoundWithin }
{
    match BlockSize::of(system.block_size) {
        None => { Err(WithinFault::System(FileSystemFault::BlockSize(system.block_size))) }
        Some(size) => match super_at(alloc, file, first, size, sums) {
            Ok(tried) => chosen(with(Ok(None), tried)),
            Err(fault) => Err(WithinFault::File(fault)),
        },
    }
}

/// The superblock that a file has at this block of some size.
fn super_of_sizes<R: Read + Seek>(
    alloc: Global,
    file: &mut R,
    first: u64,
    sums: Checksums,
) -> Result<Super, WithinFault>
    requires read { IsReadOf None }
    ensures shut { IfErr result IsNotFound }
    ensures found { IfOk result IsFoundWithin }
{
    let one = super_at(alloc, file, first, BlockSize::OneKib, sums)?;
    let two = super_at(alloc, file, first, BlockSize::TwoKib, sums)?;
    let four = super_at(alloc, file, first, BlockSize::FourKib, sums)?;
    chosen(with(with(with(Ok(None), one), two), four))
}

/// The superblock that a file has at this block of this size, where it says the same size; `None` where there is none.
fn super_at<R: Read + Seek>(
    alloc: Global,
    file: &mut R,
    first: u64,
    size: BlockSize,
    sums: Checksums,
) -> Result<Result<Option<Super>, SuperFault>, FileFault>
    ensures shut { IfErr result IsNotRead }
    ensures tried { IfOk result (IsTry size) }
    ensures said { IfOk result IsSaid }
{
    let Some(at) = first.checked_mul(u64::from(size.bytes())) else {
        return Ok(Ok(None));
    };
    if file.seek(SeekFrom::Start(at)).is_err() {
        return Ok(Ok(None));
    }
    match front_of(alloc, file) {
        Ok(front) => Ok(super_of_size(front.as_slice(), size, sums)),
        Err(fault) => Err(fault),
    }
}

/// The superblock that these bytes are, where it says this size of blocks; `None` where they are none of version 1 or
/// 2, or say another size.
fn super_of_size(
    front: &[u8],
    size: BlockSize,
    sums: Checksums,
) -> Result<Option<Super>, SuperFault>
    ensures is { result ≡ try_of size (read_as sums front.now) }
    ensures said { IsSaid result }
{
    match Super::read_by(sums, front) {
        Ok(sb) if sb.block_size() == size => Ok(Some(sb)),
        Ok(_) => Ok(None),
        Err(fault) => refused(fault),
    }
}

/// Whether a block that is refused as a superblock is one, of version 1 or 2.
fn refused(fault: SuperFault) -> Result<Option<Super>, SuperFault>
    ensures { result ≡ try_refused fault }
{
    match fault {
        SuperFault::ShortBlock | SuperFault::NoMagic => Ok(None),
        SuperFault::NotVersion2(kind) if kind != 3 => Ok(None),
        fault => Err(fault),
    }
}

/// What blocks of some sizes are, after those before: the one superblock that was found, if one was; or why there is
/// none, of two superblocks that, and else the first that was refused.
fn with(
    before: Result<Option<Super>, WithinFault>,
    tried: Result<Option<Super>, SuperFault>,
) -> Result<Option<Super>, WithinFault>
    requires before { IsSaidSo before }
    requires tried { IsSaid tried }
    ensures is { result ≡ with_try before tried }
    ensures said { IsSaidSo result }
{
    match (before, tried) {
        (Ok(None), Ok(found)) => Ok(found),
        (Ok(None), Err(fault)) => Err(WithinFault::File(FileFault::Super(fault))),
        (Ok(Some(one)), Ok(Some(other))) => Err(two_sizes(one, other)),
        (Ok(Some(one)), Ok(None) | Err(_)) => Ok(Some(one)),
        (Err(WithinFault::File(_)), Ok(Some(found))) => Ok(Some(found)),
        (Err(fault), _) => Err(fault),
    }
}

/// Two superblocks, in blocks of two sizes.
fn two_sizes(one: Super, other: Super) -> WithinFault
    ensures { result ≡ of_sizes one other }
{
    let (one, other) = (one.block_size().bytes(), other.block_size().bytes());
    WithinFault::Extents(ExtentsFault::BlockSizes(one, other))
}

/// The superblock that was found, or why there is none.
fn chosen(found: Result<Option<Super>, WithinFault>) -> Result<Super, WithinFault>
    requires { IsSaidSo found }
    ensures is { result ≡ super_chosen found }
    ensures says { IfOk result SaysSuper }
    ensures refused { IfErr result (λ fault. IsSaidSo (Err fault)) }
{
    match found {
        Ok(Some(sb)) => Ok(sb),
        Ok(None) => Err(WithinFault::Extents(ExtentsFault::NoJournal)),
        Err(fault) => Err(fault),
    }
}
