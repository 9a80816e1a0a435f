ghost use Rattle.std.specs.Prelude.{◌≡◌, ℕ, not, if◌then◌else◌, nat_eq, ◌<◌, OnOk, OnErr};
ghost use Rattle.std.specs.Ordering.{nat_cmp};
ghost use Rattle.std.specs.FinMap as map;
ghost use Rattle.std.specs.BTreeSet.{contains, IsEmpty};
ghost use Rattle.jb_handle.specs.Word.{is_copy};
ghost use Rattle.jb_handle.specs.Words.{is_copied, is_freed};
ghost use Rattle.jb_cost.specs.NewHomes.{later};

use jb_block::Memory;
use jb_handle::{Word, Words};
use std::alloc::Global;
use std::collections::BTreeSet;

/// The homes by their last word.
#[derive(Drop)]
pub(crate) struct LastWords {
    pub(crate) copies: BTreeSet<u64>,
    pub(crate) frees: BTreeSet<u64>,
}

impl LastWords {
    pub(crate) fn new(alloc: Global) -> LastWords
        ensures copies { IsEmpty result.copies }
        ensures frees { IsEmpty result.frees }
    {
        LastWords {
            copies: BTreeSet::new(alloc),
            frees: BTreeSet::new(alloc),
        }
    }

    /// Puts the words of a further handle.
    pub(crate) fn put_all(&mut self, words: &Words) -> Result<(), Memory>
        ensures grows { OnErr result (0 < map.len words.now) }
        ensures copies { OnOk result ((q : ℕ) → contains nat_cmp self.new.copies q ≡ later is_copied
            (map.get words.now q) (contains nat_cmp self.old.copies q)) }
        ensures frees { OnOk result ((q : ℕ) → contains nat_cmp self.new.frees q ≡ later is_freed (map.get words.now q)
            (contains nat_cmp self.old.frees q)) }
    {
        for (home, word) in words.entries() {
            self.put(*home, word)?;
        }
        Ok(())
    }

    fn put(&mut self, home: u64, word: &Word) -> Result<(), Memory>
        ensures copies { OnOk result ((q : ℕ) → contains nat_cmp self.new.copies
            q ≡ (if nat_eq q home then is_copy word.now else contains nat_cmp self.old.copies q)) }
        ensures frees { OnOk result ((q : ℕ) → contains nat_cmp self.new.frees
            q ≡ (if nat_eq q home then not (is_copy word.now) else contains nat_cmp self.old.frees q)) }
    {
        if word.is_copy() {
            self.copies.insert(home)?;
            self.frees.remove(&home);
        } else {
            self.frees.insert(home)?;
            self.copies.remove(&home);
        }
        Ok(())
    }
}
