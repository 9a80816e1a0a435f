ghost use Rattle.std.specs.Prelude.{◌≡◌, ◌∷◌, ◌<◌, false, IfErr, IfOk, IfSome, OnOk, length};
ghost use Rattle.std.specs.Option.{option_copied};
ghost use Rattle.jb_image.specs.Lists.{attached, extents_count, follows_at, is_attached};
ghost use Rattle.jb_map.specs.Twice.{AreForward};
ghost use Rattle.jb_image.specs.Lists.{is_between as stands_between, listed, listed_in, TakesWord};

use crate::extents_fault::ListFault;
use crate::list_word::{ListWord, read_word};
use crate::parting::first_parting;
use crate::shared::lowest_shared;
use jb_block::Memory;
use jb_map::Extent;
use std::alloc::Global;

/// Where the blocks of a journal are in an image: in stretches, one after the other, none of which goes on where the
/// one before it ends.
#[derive(Drop)]
pub struct Extents {
    list: Vec<Extent>,
}

impl Extents {
    ghost use Rattle.std.specs.Prelude.{◌≡◌};
    ghost use Rattle.std.specs.Prelude.{◌<◌, ◌-◌, ◌^◌, IfOk};
    ghost use Rattle.jb_image.specs.Lists.{PartsFirst, ReadsList, SharesFirst, extents_count, holds_in, list_of};
    ghost use Rattle.jb_image.specs.Lists.{meets_in, past_in, place_within};

    /// The extents that a text lists, as `stat` of debugfs does: `(0-1023):8193-9216, (1024):9300, (IND):8192`. Words
    /// are separated by white space, commas or both. A stretch without a place, as `8193-9216`, has the next blocks of
    /// the journal; so has a block without one. What goes on where the stretch before it ends is one stretch with it:
    /// a list of single blocks in a row is one stretch.
    ///
    /// # Errors
    /// `ListFault::Syntax` where a word is of another form, or the stretches are not in the journal's order;
    /// `ListFault::Memory` where memory ran out for a further stretch: the words up to it are of the form.
    pub fn read(alloc: Global, text: &[u8]) -> Result<Extents, ListFault>
        /// The extents are those that a text lists, and it is refused exactly where it lists none. Memory runs out only
        /// at a word that says a further stretch of the journal, where all words up to it are of the form.
        ensures { ReadsList text.now result }
    {
        let mut list = Vec::new(alloc);
        let mut blocks = 0;
        let mut left = Some(text);
        while let Some(words) = left {
            let (word, rest) = next_listed(words);
            blocks = take_word(&mut list, blocks, word)?;
            left = rest;
        }
        Ok(Extents { list })
    }

    /// Those of a list, in the journal's order.
    pub fn of(list: Vec<Extent>) -> Extents
        ensures { list_of result ≡ list.items }
    {
        Extents { list }
    }

    /// How many blocks they have; 2^64 - 1 for more.
    pub fn blocks(&self) -> u64
        ensures { result ≡ extents_count (list_of self.now) }
    {
        total(self.list.as_slice())
    }

    /// The block of the image that holds block `i` of the journal.
    pub fn place(&self, i: u64) -> Option<u64>
        /// Where a block of the journal is.
        ensures { result ≡ place_within (list_of self.now) i }
    {
        let mut left = i;
        for extent in &self.list {
            let blocks = extent.blocks();
            if left < blocks {
                return Some(extent.at(left));
            }
            left -= blocks;
        }
        None
    }

    /// Whether one of them has this block of the image.
    pub fn holds(&self, block: u64) -> bool
        ensures { result ≡ holds_in (list_of self.now) block }
    {
        for extent in &self.list {
            if extent.has(block) {
                return true;
            }
        }
        false
    }

    /// The lowest block that is in two of them.
    ///
    /// # Errors
    /// `Memory` where a growth was refused: they are copied, and sorted.
    pub fn shared(&self, alloc: Global) -> Result<Option<u64>, Memory>
        /// Which block is the lowest in two extents, or that none is.
        ensures { IfOk result (SharesFirst (list_of self.now)) }
    {
        lowest_shared(alloc, self.list.as_slice())
    }

    /// A block that they share with an extent, as with home blocks in a row: of the first of them that has one.
    pub fn meets(&self, extent: Extent) -> Option<u64>
        ensures { result ≡ meets_in extent (list_of self.now) }
    {
        for other in &self.list {
            if extent.first <= other.last && other.first <= extent.last {
                return Some(extent.first.max(other.first));
            }
        }
        None
    }

    /// The first block of the journal that is not where other extents have it.
    pub fn first_other(&self, other: &Extents) -> Option<u64>
        requires { extents_count (list_of self.now) < 2 ^ 64 - 1 }
        /// Which block of the journal is the first that is not where other extents have it, or that none is.
        ensures { PartsFirst (list_of self.now) (list_of other.now) result }
    {
        first_parting(self.list.as_slice(), other.list.as_slice())
    }

    /// The last block of the first of them that is not whole in an image of this many blocks.
    pub fn past(&self, count: u64) -> Option<u64>
        /// Which extent is not whole in the image, by its last block, or none.
        ensures { result ≡ past_in count (list_of self.now) }
    {
        for extent in &self.list {
            if extent.last >= count {
                return Some(extent.last);
            }
        }
        None
    }
}

/// How many blocks extents have; 2^64 - 1 for more.
fn total(list: &[Extent]) -> u64
    ensures { result ≡ extents_count list.now }
{
    let mut sum = 0u64;
    for extent in list {
        sum = sum.saturating_add(extent.blocks());
    }
    sum
}

/// The first word of a text, and what is after the byte that ends it, where there is one.
fn next_listed(text: &[u8]) -> (&[u8], Option<&[u8]>)
    ensures words { listed text.now ≡ result.0.now ∷ listed_in (option_copied result.1) }
    ensures shorter { IfSome result.1 (λ rest. length rest.now < length text.now) }
{
    for at in 0..text.len() {
        if is_between(text[at]) {
            return (text.split_at(at).0, Some(text.split_at(at + 1).1));
        }
    }
    (text, None)
}

/// Whether a byte is between two words: white space (space, tab, line feed, vertical tab, form feed or carriage return)
/// or a comma.
fn is_between(byte: u8) -> bool
    ensures { result ≡ stands_between byte }
{
    matches!(byte, b' ' | b',' | 9..=13)
}

/// Puts the blocks that a word says after those that are listed, which are this many, and gives how many are listed
/// then.
fn take_word(list: &mut Vec<Extent>, blocks: u64, word: &[u8]) -> Result<u64, ListFault>
    requires counted { blocks ≡ extents_count list.old.items }
    requires forward { AreForward list.old.items }
    ensures takes { TakesWord word.now list.old.items list.new.items result }
    ensures counted { IfOk result (λ now. now ≡ extents_count list.new.items) }
    ensures forward { OnOk result (AreForward list.new.items) }
{
    match read_word(word) {
        None => Err(ListFault::Syntax),
        Some(ListWord::Nothing) => Ok(blocks),
        Some(ListWord::Blocks(at, extent)) => {
            if !follows(blocks, at) {
                return Err(ListFault::Syntax);
            }
            put(list, extent)?;
            Ok(blocks.saturating_add(extent.blocks()))
        }
    }
}

/// Puts an extent after those that are listed: one that goes on where the last of them ends is one with that.
fn put(list: &mut Vec<Extent>, extent: Extent) -> Result<(), Memory>
    ensures put { OnOk result (list.new.items ≡ attached list.old.items extent) }
    ensures grows { IfErr result (λ _. is_attached list.old.items extent ≡ false) }
{
    let n = list.len();
    if goes_on(list.as_slice(), extent) {
        list[n - 1].last = extent.last;
        return Ok(());
    }
    list.push(extent)?;
    Ok(())
}

/// Whether an extent goes on where the last of others ends.
fn goes_on(list: &[Extent], extent: Extent) -> bool
    ensures { result ≡ is_attached list.now extent }
{
    match list.last() {
        None => false,
        Some(last) => extent.first > 0 && last.last == extent.first - 1,
    }
}

/// Whether a stretch that begins at this block of the journal comes next after this many; one that does not say where
/// it begins does.
fn follows(blocks: u64, at: Option<u64>) -> bool
    ensures { result ≡ follows_at blocks at }
{
    match at {
        None => true,
        Some(at) => at == blocks,
    }
}
