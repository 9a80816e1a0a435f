//! What a crash makes of the blocks of a disk in memory, sector by sector.
ghost use Rattle.std.specs.Prelude.{◌≡◌, ◌<◌, ◌≤◌, ◌+◌, ◌*◌, ◌/◌, ◌∷◌, ℕ, List};
ghost use Rattle.std.specs.Prelude.{[], length, take, drop, get_or, All, IfOk, OnErr, MatchOption};
ghost use Rattle.jb_block.specs.Size.{bytes_of};
ghost use Rattle.jb_disk.specs.Calls.{steps_of, image_of};
ghost use Rattle.jb_disk.specs.History.{replay, AreWhole};
ghost use Rattle.jb_disk.specs.Image.{HasShape, block as block_at, sector};
ghost use Rattle.jb_disk.specs.CrashWrites.{put_sector, bytes_of_writes, table_of, writes_at, any_below, AreWrites};
ghost use Rattle.jb_disk.specs.Versions.{synced, written, written_below, version, versions};

use crate::memory::Call;
use jb_block::{BlockSize, Memory};
use std::alloc::Global;

/// How many bytes a disk writes whole or not at all.
pub const SECTOR: usize = 512;

/// How many calls there are up to the last sync, that one included.
fn until_sync(calls: &[Call]) -> usize
    ensures within { result ≤ length calls.now }
    ensures before { (first : List (List ℕ)) → synced first (steps_of calls.now) ≡ replay first
        (steps_of (take result calls.now)) }
    ensures behind { (place : ℕ) → written (steps_of calls.now) place ≡ written (steps_of (drop result calls.now))
        place }
    ensures writes { AreWrites (steps_of (drop result calls.now)) }
{
    let mut count = 0;
    for (i, call) in calls.iter().enumerate() {
        if let Call::Sync = call {
            count = i + 1;
        }
    }
    count
}

/// A copy of these blocks.
pub(crate) fn copy_of(alloc: Global, blocks: &[Vec<u8>]) -> Result<Vec<Vec<u8>>, Memory>
    ensures copy { IfOk result (λ copy. image_of copy.items ≡ image_of blocks.now) }
    ensures grows { OnErr result (0 < length blocks.now) }
{
    let mut copy = Vec::new(alloc);
    for block in blocks {
        copy.push(block.as_slice().to_vec(alloc)?)?;
    }
    Ok(copy)
}

/// Writes to the blocks what the calls wrote.
fn replay_calls(image: &mut [Vec<u8>], calls: &[Call])
    requires { (size : ℕ) × HasShape (length image.old) size (image_of image.old)
        × AreWhole (length image.old) size (steps_of calls.now) }
    ensures { image_of image.new ≡ replay (image_of image.old) (steps_of calls.now) }
{
    for call in calls {
        if let Call::Write(place, bytes) = call {
            image[*place as usize].copy_from_slice(bytes);
        }
    }
}

/// No writes of this many blocks.
fn no_writes<'a>(alloc: Global, count: usize) -> Result<Vec<Vec<&'a [u8]>>, Memory>
    ensures places { IfOk result (λ table. length table.items ≡ count) }
    ensures none { IfOk result (λ table. (place : ℕ) → writes_at (table_of table.items) place ≡ []) }
    ensures grows { OnErr result (0 < count) }
{
    let mut table = Vec::new(alloc);
    for _place in 0..count {
        table.push(Vec::new(alloc))?;
    }
    Ok(table)
}

/// The writes of each of this many blocks, in order.
fn writes_by_place<'a>(
    alloc: Global,
    count: usize,
    calls: &'a [Call],
) -> Result<Vec<Vec<&'a [u8]>>, Memory>
    requires whole { (size : ℕ) × AreWhole count size (steps_of calls.now) }
    requires writes { AreWrites (steps_of calls.now) }
    ensures places { IfOk result (λ table. length table.items ≡ count) }
    ensures writes { IfOk result (λ table. (place : ℕ) → place < count
        → writes_at (table_of table.items) place ≡ written (steps_of calls.now) place) }
    ensures grows { OnErr result (0 < count) }
{
    let mut table = no_writes(alloc, count)?;
    for call in calls {
        if let Call::Write(place, bytes) = call {
            table[*place as usize].push(bytes.as_slice())?;
        }
    }
    Ok(table)
}

/// The number that a choice gives to a sector, 0 where it has no more.
fn number_at(choice: &[u32], k: usize) -> u32
    ensures { result ≡ get_or choice.now k 0 }
{
    choice.get(k).copied().unwrap_or(0)
}

/// The numbers of a choice after the first n.
fn behind(choice: &[u32], n: usize) -> &[u32]
    ensures { result.now ≡ drop n choice.now }
{
    &choice[n.min(choice.len())..]
}

/// The write whose bytes a sector takes, or none where it keeps those of the sync.
fn pick<'a>(writes: &[&'a [u8]], number: u32) -> Option<&'a [u8]>
    ensures { (old : List ℕ) → MatchOption result (version (old ∷ bytes_of_writes writes.now) number ≡ old)
        (λ w. version (old ∷ bytes_of_writes writes.now) number ≡ w.now) }
{
    let chosen = number as usize % (writes.len() + 1);
    if chosen == 0 {
        return None;
    }
    Some(writes[chosen - 1])
}

/// Puts the k-th sector of one block over another's.
fn copy_sector(to: &mut [u8], from: &[u8], k: usize)
    requires same { length from.now ≡ length to.old }
    requires within { 512 * k + 512 ≤ length to.old }
    ensures { to.new ≡ put_sector k from.now to.old }
{
    let at = SECTOR * k;
    to[at..at + SECTOR].copy_from_slice(&from[at..at + SECTOR]);
}

/// Gives each sector of a block the version that the choice names.
fn mix(block: &mut [u8], writes: &[&[u8]], sectors: usize, choice: &[u32])
    requires size { length block.old ≡ 512 * sectors }
    requires whole { All (λ b. length b ≡ 512 * sectors) (bytes_of_writes writes.now) }
    ensures { (k : ℕ) → k < sectors → sector k block.new ≡ sector k
        (version (block.old ∷ bytes_of_writes writes.now) (get_or choice.now k 0)) }
{
    for k in 0..sectors {
        if let Some(bytes) = pick(writes, number_at(choice, k)) {
            copy_sector(block, bytes, k);
        }
    }
}

/// Gives each sector of the blocks the version that the choice names: the sectors of the blocks that
/// have writes take its numbers in rising order.
fn choose(image: &mut [Vec<u8>], writes: &[Vec<&[u8]>], sectors: usize, choice: &[u32])
    requires shape { HasShape (length image.old) (512 * sectors) (image_of image.old) }
    requires places { length writes.now ≡ length image.old }
    requires whole { (place : ℕ) → place < length image.old
        → All (λ b. length b ≡ 512 * sectors) (writes_at (table_of writes.now) place) }
    ensures shape { HasShape (length image.old) (512 * sectors) (image_of image.new) }
    ensures chosen { (place k : ℕ) → place < length image.old → k < sectors
        → sector k (block_at (image_of image.new) place) ≡ sector k
        (version (block_at (image_of image.old) place ∷ writes_at (table_of writes.now) place)
        (get_or choice.now (any_below (table_of writes.now) place * sectors + k) 0)) }
{
    let mut rest = choice;
    for place in 0..image.len() {
        let versions = writes[place].as_slice();
        if !versions.is_empty() {
            mix(&mut image[place], versions, sectors, rest);
            rest = behind(rest, sectors);
        }
    }
}

/// The blocks that the calls lead to from these first ones.
fn synced_image(alloc: Global, first: &[Vec<u8>], calls: &[Call]) -> Result<Vec<Vec<u8>>, Memory>
    requires { (size : ℕ) × HasShape (length first.now) size (image_of first.now)
        × AreWhole (length first.now) size (steps_of calls.now) }
    ensures synced { IfOk result (λ image. image_of image.items ≡ replay (image_of first.now) (steps_of calls.now)) }
    ensures grows { OnErr result (0 < length first.now) }
{
    let mut image = copy_of(alloc, first)?;
    replay_calls(&mut image, calls);
    Ok(image)
}

/// The blocks that a crash leaves of these first blocks and calls, by the choice.
pub(crate) fn crash_image(
    alloc: Global,
    size: BlockSize,
    first: &[Vec<u8>],
    calls: &[Call],
    choice: &[u32],
) -> Result<Vec<Vec<u8>>, Memory>
    requires shape { HasShape (length first.now) (bytes_of size) (image_of first.now) }
    requires whole { AreWhole (length first.now) (bytes_of size) (steps_of calls.now) }
    ensures count { IfOk result (λ image. length image.items ≡ length first.now) }
    ensures shape { IfOk result (λ image. HasShape (length first.now) (bytes_of size) (image_of image.items)) }
    ensures grows { OnErr result (0 < length first.now) }
    ensures chosen { IfOk result (λ image. (place k : ℕ) → place < length first.now → k < bytes_of size / 512
        → sector k (block_at (image_of image.items) place) ≡ sector k
        (version (versions (image_of first.now) (steps_of calls.now) place)
        (get_or choice.now (written_below (steps_of calls.now) place * (bytes_of size / 512) + k) 0))) }
{
    let synced = until_sync(calls);
    let mut image = synced_image(alloc, first, &calls[..synced])?;
    let writes = writes_by_place(alloc, image.len(), &calls[synced..])?;
    choose(&mut image, &writes, size.bytes() as usize / SECTOR, choice);
    Ok(image)
}
