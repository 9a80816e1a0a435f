ghost use Rattle.std.specs.Prelude.{◌≡◌, ◌≢◌, ◌⊎◌, Some, None, false, OnOk, OnErr, IfErr};
ghost use Rattle.std.specs.FinMap as map;

use crate::op::Op;
use crate::payload::Payload;
use crate::shape::Shape;
use crate::word::Word;
use crate::words::Words;
use jb_block::Memory;
use std::alloc::Global;
use std::marker::Model;
use thiserror::Error;

/// Why a handle refuses a change. The handle is as it was.
#[derive(Clone, Copy, Debug, PartialEq, Eq, Error)]
pub enum TouchFault {
    /// The home block is new to the handle, and all of its credits, this many blocks, are used.
    #[error("all {0} credits of the handle are used; begin a handle with more")]
    NoCredit(u32),
    /// The home block of this number is none of the journal's.
    #[error("the journal has no home block {0}")]
    OutOfRange(u64),
    /// The bytes are not as many as a block has.
    #[error("the bytes are not as many as a block has")]
    Length,
    /// There was no memory for the change.
    #[error("out of memory")]
    Memory,
}

impl From<Memory> for TouchFault {
    ghost use Rattle.jb_handle.specs.declared.changes.TouchFault.TheVariants.{Memory as OutOfMemory};

    ghost from_gives = { λ _ fault. fault ≡ OutOfMemory };

    fn from(_refused: Memory) -> TouchFault {
        TouchFault::Memory
    }
}

/// What a handle has changed so far: its credits (`h_total_credits`), which bound how many different blocks
/// it may touch, and the last word on each block that it touched. It may be dropped, and kept in a map.
#[derive(Drop)]
pub struct Changes {
    credits: u32,
    shape: Shape,
    words: Words,
    alloc: Global,
}

impl Model for Changes {
    ghost use Rattle.std.specs.Coded.{codes};
    ghost use Rattle.jb_handle.specs.Word.{words_code};
    ghost use Rattle.jb_handle.specs.HeldChanges.{Held, held, IsKept};

    ghost Value = { Held };

    ghost coded = { Prim.hlevel (codes, words_code) };

    ghost view = { λ c. held c.credits c.shape c.words };

    ghost invariant = { λ c. IsKept (held c.credits c.shape c.words) };
}

impl Changes {
    ghost use Rattle.jb_handle.specs.HeldChanges.{Held, held, touched_count, IsKept, len_in, put_at, after};
    ghost use Rattle.jb_handle.specs.HeldChanges.{home_of, refusal};
    ghost use Rattle.jb_handle.specs.HeldChanges.{refusal_at, is_spent};
    ghost use Rattle.jb_handle.specs.Word.{is_copy};
    ghost use Rattle.jb_handle.specs.declared.op.Op.TheVariants.{Write, Revoke};
    ghost use Rattle.jb_handle.specs.declared.changes.TouchFault.TheVariants.{Memory as OutOfMemory};

    /// No changes, and this many credits. Takes no memory.
    pub fn new(alloc: Global, credits: u32, shape: Shape) -> Changes
        ensures { result ≡ held credits shape map.empty }
    {
        Changes {
            credits,
            shape,
            words: Words::new(alloc),
            alloc,
        }
    }

    /// How many different home blocks may be touched.
    pub fn credits(&self) -> u32
        ensures { result ≡ self.now.credits }
    {
        self.credits
    }

    /// What the changes have to fit.
    pub fn shape(&self) -> Shape
        ensures { result ≡ self.now.shape }
    {
        self.shape
    }

    /// How many home blocks were touched.
    pub fn touched(&self) -> u32
        ensures value { result ≡ touched_count self.now }
        ensures kept { IsKept self.now }
    {
        self.words.len() as u32
    }

    /// The last word on each home block that was touched.
    pub fn words(&self) -> &Words
        ensures words { result.now ≡ self.now.words }
        ensures kept { IsKept self.now }
    {
        &self.words
    }

    /// The same, without the rest.
    pub fn into_words(self) -> Words
        ensures words { result ≡ self.words }
        ensures kept { IsKept self }
    {
        self.words
    }

    /// Takes a change.
    ///
    /// # Errors
    ///
    /// The first of these, and the changes are as they were: `NoCredit`, `OutOfRange`, `Length`, and
    /// `Memory` where the block is new and there is none for it.
    pub fn apply(&mut self, op: Op) -> Result<(), TouchFault>
        ensures ok { OnOk result (self.new ≡ after self.old op) }
        ensures granted { OnOk result (refusal self.old op ≡ None) }
        ensures err { OnErr result (self.new ≡ self.old) }
        ensures refused { IfErr result (λ fault. (fault ≡ OutOfMemory) ⊎ (refusal self.old op ≡ Some fault)) }
        ensures memory { IfErr result (λ fault. fault ≡ OutOfMemory → (refusal self.old op ≡ None)
            × (map.contains_key self.old.words (home_of op) ≡ false)) }
    {
        match op {
            Op::Write(home, payload) => self.take(home, Word::Copy(payload)),
            Op::Revoke(home) => self.revoke(home),
        }
    }

    /// The home block gets these bytes (`jbd2_journal_dirty_metadata`). It cancels a revoke of
    /// the block.
    ///
    /// # Errors
    ///
    /// The first of these, and the changes are as they were: `NoCredit`, `OutOfRange`, `Length`, and
    /// `Memory` where there is none for a copy of the bytes or for a further block.
    pub fn write(&mut self, home: u64, bytes: &[u8]) -> Result<(), TouchFault>
        ensures ok { OnOk result (self.new ≡ after self.old (Write home bytes.now)) }
        ensures granted { OnOk result (refusal self.old (Write home bytes.now) ≡ None) }
        ensures err { OnErr result (self.new ≡ self.old) }
        ensures refused { IfErr result (λ fault. (fault ≡ OutOfMemory)
            ⊎ (refusal self.old (Write home bytes.now) ≡ Some fault)) }
        ensures memory { IfErr result (λ fault. fault ≡ OutOfMemory → refusal self.old (Write home bytes.now) ≡ None) }
    {
        self.admit(home, Some(bytes.len()))?;
        let payload = Payload::of(self.alloc, bytes)?;
        self.keep(home, Word::Copy(payload))
    }

    /// The home block is freed (`jbd2_journal_revoke`). It drops a copy of the block.
    ///
    /// # Errors
    ///
    /// The first of these, and the changes are as they were: `NoCredit`, `OutOfRange`, and `Memory`
    /// where the block is new and there is none for it.
    pub fn revoke(&mut self, home: u64) -> Result<(), TouchFault>
        ensures ok { OnOk result (self.new ≡ after self.old (Revoke home)) }
        ensures granted { OnOk result (refusal self.old (Revoke home) ≡ None) }
        ensures err { OnErr result (self.new ≡ self.old) }
        ensures refused { IfErr result (λ fault. (fault ≡ OutOfMemory)
            ⊎ (refusal self.old (Revoke home) ≡ Some fault)) }
        ensures memory { IfErr result (λ fault. fault ≡ OutOfMemory → (refusal self.old (Revoke home) ≡ None)
            × (map.contains_key self.old.words home ≡ false)) }
    {
        self.take(home, Word::Free)
    }

    /// Puts a copy of a word on the home block: what [`Changes::write`] does with the bytes of a copy, and
    /// [`Changes::revoke`] with a freed block. A copy takes no more memory than its word does.
    ///
    /// # Errors
    ///
    /// The first of these, and the changes are as they were: `NoCredit`, `OutOfRange`, `Length`, and
    /// `Memory` where there is none for the first bytes of a copy or for a further block.
    pub fn put(&mut self, home: u64, word: &Word) -> Result<(), TouchFault>
        ensures ok { OnOk result (self.new ≡ put_at self.old home word.now) }
        ensures granted { OnOk result (refusal_at self.old home (len_in word.now) ≡ None) }
        ensures err { OnErr result (self.new ≡ self.old) }
        ensures refused { IfErr result (λ fault. (fault ≡ OutOfMemory)
            ⊎ (refusal_at self.old home (len_in word.now) ≡ Some fault)) }
        ensures memory { IfErr result (λ fault. fault ≡ OutOfMemory
            → (refusal_at self.old home (len_in word.now) ≡ None)
            × (is_copy word.now ≡ false → map.contains_key self.old.words home ≡ false)) }
    {
        self.admit(home, word.len())?;
        let word = word.try_clone()?;
        self.keep(home, word)
    }

    /// Takes a word as it is on the home block.
    fn take(&mut self, home: u64, word: Word) -> Result<(), TouchFault>
        ensures ok { OnOk result (self.new ≡ put_at self.old home word) }
        ensures granted { OnOk result (refusal_at self.old home (len_in word) ≡ None) }
        ensures err { OnErr result (self.new ≡ self.old) }
        ensures refused { IfErr result (λ fault. (fault ≡ OutOfMemory)
            ⊎ (refusal_at self.old home (len_in word) ≡ Some fault)) }
        ensures memory { IfErr result (λ fault. fault ≡ OutOfMemory → (refusal_at self.old home (len_in word) ≡ None)
            × (map.contains_key self.old.words home ≡ false)) }
    {
        self.admit(home, word.len())?;
        self.keep(home, word)
    }

    /// The first reason against a change of this home block, by a write of this many bytes or a revoke.
    fn admit(&self, home: u64, len: Option<usize>) -> Result<(), TouchFault>
        ensures ok { OnOk result (refusal_at self.now home len ≡ None) }
        ensures err { IfErr result (λ fault. refusal_at self.now home len ≡ Some fault) }
        ensures reason { IfErr result (λ fault. fault ≢ OutOfMemory) }
        ensures kept { IsKept self.now }
    {
        if self.is_spent(home) {
            return Err(TouchFault::NoCredit(self.credits));
        }
        if home >= self.shape.homes {
            return Err(TouchFault::OutOfRange(home));
        }
        match len {
            Some(len) if len != self.shape.bs.bytes() as usize => Err(TouchFault::Length),
            _ => Ok(()),
        }
    }

    /// Whether the home block is new, and all credits are used.
    fn is_spent(&self, home: u64) -> bool
        ensures { result ≡ is_spent self.now home }
    {
        self.words.get(home).is_none() && self.touched() >= self.credits
    }

    /// Keeps a word on a home block for which it was admitted.
    fn keep(&mut self, home: u64, word: Word) -> Result<(), TouchFault>
        requires kept { IsKept (put_at self.old home word) }
        ensures ok { OnOk result (self.new ≡ put_at self.old home word) }
        ensures err { OnErr result (self.new ≡ self.old) }
        ensures refused { IfErr result (λ fault. fault ≡ OutOfMemory) }
        ensures new { OnErr result (map.contains_key self.old.words home ≡ false) }
    {
        Ok(self.words.put(home, word)?)
    }
}
