ghost use Rattle.std.specs.Prelude.{◌≡◌, IfOk, OnOk, OnErr, T, IsTrue, ◌↔◌, length, ◌<◌, ◌^◌, None, All};
ghost use Rattle.std.specs.Ordering.{nat_cmp};
ghost use Rattle.std.specs.Option.{option_copied};
ghost use Rattle.std.specs.FinMap as map;
ghost use Rattle.jb_handle.specs.HomeSearch.{IsPlaced};
ghost use Rattle.jb_handle.specs.Word.{EntryHasBytes};

use crate::shape::Shape;
use crate::word::Word;
use jb_block::Memory;
use std::alloc::Global;
use std::collections::BTreeMap;
use std::marker::Model;

/// What a handle leaves at each home block that it touched: home block numbers that rise, each with
/// its last word. (The kernel keeps this for a whole transaction: `t_buffers`, and the revoke table.)
#[derive(Debug, Drop)]
pub struct Words {
    entries: Vec<(u64, Word)>,
}

impl Model for Words {
    ghost use Rattle.std.specs.FinMap as map;
    ghost use Rattle.jb_handle.specs.Word.{WordMap, words_code, AreWords};

    ghost Value = { WordMap };

    ghost coded = { words_code };

    ghost view = { λ a. map.from_sorted a.entries.items };

    ghost invariant = { λ a. AreWords a.entries.items };
}

impl Words {
    ghost use Rattle.jb_handle.specs.HeldChanges.{Fits};

    /// No words. Takes no memory.
    pub fn new(alloc: Global) -> Words
        ensures { result ≡ map.empty }
    {
        Words {
            entries: Vec::new(alloc),
        }
    }

    /// The words of a tree, in the order of their homes.
    ///
    /// # Errors
    ///
    /// `Memory` where there is none for the list, and never for an empty tree.
    pub(crate) fn from_tree(alloc: Global, tree: BTreeMap<u64, Word>) -> Result<Words, Memory>
        requires bytes { All EntryHasBytes tree.entries }
        ensures ok { IfOk result (λ words. map.entries words ≡ tree.entries) }
        ensures err { OnErr result (0 < length tree.entries) }
    {
        if tree.is_empty() {
            return Ok(Words::new(alloc));
        }
        let entries = tree.into_iter().collect(alloc)?;
        Ok(Words { entries })
    }

    /// How many home blocks have a word.
    pub fn len(&self) -> usize
        ensures value { result ≡ map.len self.now }
        ensures bound { result < 2 ^ 63 }
    {
        self.entries().len()
    }

    /// Whether no home block has a word.
    pub fn is_empty(&self) -> bool
        ensures { IsTrue result ↔ (map.len self.now ≡ 0) }
    {
        self.len() == 0
    }

    /// The home blocks, in rising order, each with its word.
    pub fn entries(&self) -> &[(u64, Word)]
        ensures { result.now ≡ map.entries self.now }
    {
        &self.entries
    }

    /// The numbers of the copies are bytes. It does nothing: the fact is its contract.
    pub fn hold_bytes(&self)
        ensures { All EntryHasBytes (map.entries self.now) }
    {
        // for the proof alone: what a value keeps is known once the body reads of it
        let _entries = &self.entries;
    }

    /// The word of a home block, or `None` where it has none.
    pub fn get(&self, home: u64) -> Option<&Word>
        ensures { option_copied result ≡ map.get self.now home }
    {
        match place_of(&self.entries, home) {
            Ok(at) => Some(&self.entries[at].1),
            Err(_) => None,
        }
    }

    /// Puts a word on a home block, in place of the one that it had, if any.
    ///
    /// # Errors
    ///
    /// `Memory` where the home block had no word and there is none for a further one; the words are as
    /// they were.
    pub fn put(&mut self, home: u64, word: Word) -> Result<(), Memory>
        ensures ok { OnOk result (self.new ≡ map.insert self.old home word) }
        ensures err { OnErr result (self.new ≡ self.old) }
        ensures new { OnErr result (map.get self.old home ≡ None) }
    {
        word.holds_bytes(); // for the proof alone: words hold bytes
        put_entry(&mut self.entries, home, word)
    }

    /// Whether each word fits a shape.
    pub fn fit(&self, shape: Shape) -> bool
        ensures { IsTrue result ↔ Fits shape self.now }
    {
        for (home, word) in self.entries() {
            if !word.fits(*home, shape) {
                return false;
            }
        }
        true
    }
}

/// Puts an entry in its place among entries with rising homes, over the one of its home, if any.
fn put_entry(entries: &mut Vec<(u64, Word)>, home: u64, word: Word) -> Result<(), Memory>
    requires rising { T (map.is_sorted nat_cmp entries.old.items) }
    ensures ok { OnOk result (map.put nat_cmp home word entries.old.items ≡ entries.new.items) }
    ensures err { OnErr result (entries.new.items ≡ entries.old.items) }
    ensures new { OnErr result (map.find nat_cmp home entries.old.items ≡ None) }
{
    match place_of(entries, home) {
        Ok(at) => {
            entries[at] = (home, word);
            Ok(())
        }
        Err(at) => Ok(entries.insert(at, (home, word))?),
    }
}

/// Where the home block is in a list of rising homes, or where it would be inserted.
fn place_of(entries: &[(u64, Word)], home: u64) -> Result<usize, usize>
    requires rising { T (map.is_sorted nat_cmp entries.now) }
    ensures { IsPlaced entries.now home result }
{
    entries.binary_search_by_key(&home, |&(at, _)| at)
}
