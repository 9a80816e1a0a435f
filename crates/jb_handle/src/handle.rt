ghost use Rattle.std.specs.Prelude.{◌≡◌, ◌⊎◌, Some, None, false, OnOk, OnErr, IfErr};
ghost use Rattle.std.specs.FinMap as map;
ghost use Rattle.std.specs.Option.{option_copied};

use crate::changes::{Changes, TouchFault};
use crate::shape::Shape;
use crate::word::Word;
use crate::words::Words;
use std::alloc::Global;

/// An open handle (`handle_t`): the seat of the thread that works with it, and its changes. It must be
/// used up: it is ended, or given to whoever stops or drops it, and cannot be dropped by accident.
#[must_use]
pub struct Handle<S> {
    seat: S,
    changes: Changes,
}

impl<S> Handle<S> {
    ghost use Rattle.jb_handle.specs.Handle.{holder, changes_of};
    ghost use Rattle.jb_handle.specs.HeldChanges.{held, touched_count, len_in, put_at, after, refusal};
    ghost use Rattle.jb_handle.specs.HeldChanges.{refusal_at, IsKept};
    ghost use Rattle.jb_handle.specs.Word.{is_copy};
    ghost use Rattle.jb_handle.specs.declared.op.Op.TheVariants.{Write, Revoke};
    ghost use Rattle.jb_handle.specs.declared.changes.TouchFault.TheVariants.{Memory};

    /// A handle of this many credits (`jbd2_journal_start`), without changes. Takes no memory.
    pub fn new(alloc: Global, seat: S, credits: u32, shape: Shape) -> Handle<S>
        ensures seat { holder result ≡ seat }
        ensures changes { changes_of result ≡ held credits shape map.empty }
    {
        Handle {
            seat,
            changes: Changes::new(alloc, credits, shape),
        }
    }

    /// How many different home blocks the handle may touch.
    pub fn credits(&self) -> u32
        ensures { result ≡ (changes_of self.now).credits }
    {
        self.changes.credits()
    }

    /// What the changes of the handle have to fit.
    pub fn shape(&self) -> Shape
        ensures { result ≡ (changes_of self.now).shape }
    {
        self.changes.shape()
    }

    /// How many home blocks the handle has touched.
    pub fn touched(&self) -> u32
        ensures value { result ≡ touched_count (changes_of self.now) }
        ensures kept { IsKept (changes_of self.now) }
    {
        self.changes.touched()
    }

    /// The seat that the handle was made for.
    pub fn seat(&self) -> &S
        ensures { result.now ≡ holder self.now }
    {
        &self.seat
    }

    /// The last word on each home block that the handle touched.
    pub fn words(&self) -> &Words
        ensures words { result.now ≡ (changes_of self.now).words }
        ensures kept { IsKept (changes_of self.now) }
    {
        self.changes.words()
    }

    /// The handle's own last word on a home block, or `None` where it has touched no such block. It costs the
    /// logarithm of how many blocks it has touched.
    pub fn word(&self, home: u64) -> Option<&Word>
        ensures { option_copied result ≡ map.get (changes_of self.now).words home }
    {
        self.words().get(home)
    }

    /// The home block gets these bytes (`jbd2_journal_dirty_metadata`). It cancels a revoke of
    /// the block.
    ///
    /// # Errors
    ///
    /// The first of these, and the handle is as it was: `NoCredit`, `OutOfRange`, `Length`, and
    /// `Memory` where there is none for a copy of the bytes or for a further block.
    pub fn write(&mut self, home: u64, bytes: &[u8]) -> Result<(), TouchFault>
        ensures seat { holder self.new ≡ holder self.old }
        /// With `refused`, `granted`, `memory`, `err`, `seat`: A write puts its copy on its block, in place of the
        /// block's earlier word, and changes nothing else. It is refused exactly for the first of its facts that holds,
        /// or with `Memory` where none does; the handle is then as it was.
        ensures ok { OnOk result (changes_of self.new ≡ after (changes_of self.old) (Write home bytes.now)) }
        ensures granted { OnOk result (refusal (changes_of self.old) (Write home bytes.now) ≡ None) }
        ensures err { OnErr result (changes_of self.new ≡ changes_of self.old) }
        ensures refused { IfErr result (λ fault. (fault ≡ Memory)
            ⊎ (refusal (changes_of self.old) (Write home bytes.now) ≡ Some fault)) }
        ensures memory { IfErr result (λ fault. fault ≡ Memory
            → refusal (changes_of self.old) (Write home bytes.now) ≡ None) }
    {
        self.changes.write(home, bytes)
    }

    /// The home block is freed (`jbd2_journal_revoke`). It drops a copy of the block.
    ///
    /// # Errors
    ///
    /// The first of these, and the handle is as it was: `NoCredit`, `OutOfRange`, and `Memory` where
    /// the block is new and there is none for it.
    pub fn revoke(&mut self, home: u64) -> Result<(), TouchFault>
        ensures seat { holder self.new ≡ holder self.old }
        /// A revoke puts a free word at its home's place, as a write puts its bytes.
        ensures ok { OnOk result (changes_of self.new ≡ after (changes_of self.old) (Revoke home)) }
        ensures granted { OnOk result (refusal (changes_of self.old) (Revoke home) ≡ None) }
        ensures err { OnErr result (changes_of self.new ≡ changes_of self.old) }
        ensures refused { IfErr result (λ fault. (fault ≡ Memory)
            ⊎ (refusal (changes_of self.old) (Revoke home) ≡ Some fault)) }
        ensures memory { IfErr result (λ fault. fault ≡ Memory → (refusal (changes_of self.old) (Revoke home) ≡ None)
            × (map.contains_key (changes_of self.old).words home ≡ false)) }
    {
        self.changes.revoke(home)
    }

    /// Puts a copy of a word on the home block: what [`Handle::write`] does with the bytes of a copy, and
    /// [`Handle::revoke`] with a freed block. A copy takes no more memory than its word does.
    ///
    /// # Errors
    ///
    /// The first of these, and the handle is as it was: `NoCredit`, `OutOfRange`, `Length`, and
    /// `Memory` where there is none for the first bytes of a copy or for a further block.
    pub fn put(&mut self, home: u64, word: &Word) -> Result<(), TouchFault>
        ensures seat { holder self.new ≡ holder self.old }
        ensures ok { OnOk result (changes_of self.new ≡ put_at (changes_of self.old) home word.now) }
        ensures granted { OnOk result (refusal_at (changes_of self.old) home (len_in word.now) ≡ None) }
        ensures err { OnErr result (changes_of self.new ≡ changes_of self.old) }
        /// With `granted`, `memory`, `ok`, `err`: A word that a text gives is put there by one call: a copy as a write
        /// of its bytes, a freed block as a revoke, with their refusals in their order.
        ensures refused { IfErr result (λ fault. (fault ≡ Memory)
            ⊎ (refusal_at (changes_of self.old) home (len_in word.now) ≡ Some fault)) }
        ensures memory { IfErr result (λ fault. fault ≡ Memory
            → (refusal_at (changes_of self.old) home (len_in word.now) ≡ None)
            × (is_copy word.now ≡ false → map.contains_key (changes_of self.old).words home ≡ false)) }
    {
        self.changes.put(home, word)
    }

    /// The seat that the handle was made for, and the handle for another one, with the same changes.
    pub fn with_seat<Q>(self, seat: Q) -> (S, Handle<Q>)
        ensures old { result.0 ≡ holder self }
        ensures seat { holder result.1 ≡ seat }
        ensures changes { changes_of result.1 ≡ changes_of self }
    {
        let Handle { seat: old, changes } = self;
        (old, Handle { seat, changes })
    }

    /// Takes the handle apart, into its seat and its words.
    pub fn end(self) -> (S, Words)
        ensures seat { result.0 ≡ holder self }
        ensures words { result.1 ≡ (changes_of self).words }
        ensures kept { IsKept (changes_of self) }
    {
        let Handle { seat, changes } = self;
        (seat, changes.into_words())
    }
}
