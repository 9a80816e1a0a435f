ghost use Rattle.std.specs.Prelude.{◌≡◌, ◌<◌, ◌⊎◌, ℕ, nat_eq, if◌then◌else◌, None, Some, is_some, IfOk, OnOk, OnErr};
ghost use Rattle.std.specs.Option.{option_or};
ghost use Rattle.std.specs.FinMap as map;

use crate::word::Word;
use crate::words::Words;
use jb_block::Memory;
use std::alloc::Global;
use std::collections::BTreeMap;
use std::marker::Model;

/// Words while they are gathered in any order: a further one costs the logarithm of their number,
/// while [`Words::put`] moves all that come after it.
#[derive(Drop)]
pub struct WordsBuilder {
    tree: BTreeMap<u64, Word>,
}

impl Model for WordsBuilder {
    ghost use Rattle.std.specs.FinMap as map;
    ghost use Rattle.jb_handle.specs.Word.{WordMap, words_code, AreWords};

    ghost Value = { WordMap };

    ghost coded = { words_code };

    ghost view = { λ a. map.from_sorted a.tree.entries };

    ghost invariant = { λ a. AreWords a.tree.entries };
}

impl WordsBuilder {
    /// No words. Takes no memory.
    pub fn new(alloc: Global) -> WordsBuilder
        ensures { result ≡ map.empty }
    {
        WordsBuilder {
            tree: BTreeMap::new(alloc),
        }
    }

    /// Puts a word on a home block, in place of the one that it had, if any.
    ///
    /// # Errors
    ///
    /// `Memory` where the home block had no word and there is none for a further one; the words are as
    /// they were.
    pub fn put(&mut self, home: u64, word: Word) -> Result<(), Memory>
        ensures ok { OnOk result (self.new ≡ map.insert self.old home word) }
        ensures err { OnErr result (self.new ≡ self.old) }
        ensures new { OnErr result (map.get self.old home ≡ None) }
    {
        word.holds_bytes(); // for the proof alone: words hold bytes
        self.tree.insert(home, word)?;
        Ok(())
    }

    /// Puts a copy of each word of an earlier handle: a home block that has a word keeps it, and no copy is made.
    ///
    /// # Errors
    ///
    /// `Memory` where there is none for a copy or a further word, and never for a handle without words. Then
    /// each home block has its word as it was, or the handle's where it had none.
    pub fn add_all(&mut self, words: &Words) -> Result<(), Memory>
        ensures ok { OnOk result ((home : ℕ) →
            map.get self.new home ≡ option_or (map.get self.old home) (map.get words.now home)) }
        ensures err { OnErr result (0 < map.len words.now) }
        ensures partly { OnErr result ((home : ℕ) → (map.get self.new home ≡ map.get self.old home)
            ⊎ (map.get self.new home ≡ option_or (map.get self.old home) (map.get words.now home))) }
    {
        for (home, word) in words.entries() {
            self.add(*home, word)?;
        }
        Ok(())
    }

    /// Puts a copy of a word on a home block, unless it has one.
    fn add(&mut self, home: u64, word: &Word) -> Result<(), Memory>
        ensures ok { OnOk result ((q : ℕ) → map.get self.new q
            ≡ option_or (map.get self.old q) (if nat_eq q home then Some word.now else None)) }
        ensures err { OnErr result (self.new ≡ self.old) }
    {
        if self.has(home) {
            return Ok(());
        }
        self.put(home, word.try_clone()?)
    }

    /// Whether a home block has a word.
    fn has(&self, home: u64) -> bool
        ensures { result ≡ is_some (map.get self.now home) }
    {
        self.tree.contains_key(&home)
    }

    /// The words in the order of their homes.
    ///
    /// # Errors
    ///
    /// `Memory` where there is none for their list, and never for no words.
    pub fn into_words(self, alloc: Global) -> Result<Words, Memory>
        ensures ok { IfOk result (λ words. words ≡ self) }
        ensures err { OnErr result (0 < map.len self) }
    {
        Words::from_tree(alloc, self.tree)
    }
}
