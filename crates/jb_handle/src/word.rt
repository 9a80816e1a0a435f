ghost use Rattle.std.specs.Prelude.{◌≡◌, ◌↔◌, IfOk, OnErr, IsTrue};

use crate::payload::Payload;
use crate::shape::Shape;
use jb_block::Memory;

/// The last word of a handle on a home block: a copy (a dirty metadata buffer) or a revoke (`jbd2_revoke_record_s`).
#[derive(Debug, Drop)]
pub enum Word {
    /// The block was changed: it is logged as a copy that holds these bytes.
    Copy(Payload),
    /// The block was freed: a revoke record stops recovery from writing an older copy of it
    /// (`jbd2_journal_revoke`).
    Free,
}

impl Word {
    ghost use Rattle.jb_handle.specs.Word.{is_copy, HasBytes};
    ghost use Rattle.jb_handle.specs.HeldChanges.{FitsWord, len_in};

    /// Whether it is a copy.
    pub fn is_copy(&self) -> bool
        ensures { result ≡ is_copy self.now }
    {
        match self {
            Word::Copy(_) => true,
            Word::Free => false,
        }
    }

    /// How many bytes a copy has, zeros included; `None` of a freed block.
    pub(crate) fn len(&self) -> Option<usize>
        ensures { result ≡ len_in self.now }
    {
        match self {
            Word::Copy(payload) => Some(payload.len()),
            Word::Free => None,
        }
    }

    /// Whether the word fits a shape on this home block: the home is there, and a copy has the
    /// bytes of a block.
    pub fn fits(&self, home: u64, shape: Shape) -> bool
        ensures { IsTrue result ↔ FitsWord shape home self.now }
    {
        let sized = match self {
            Word::Copy(payload) => payload.len() == shape.bs.bytes() as usize,
            Word::Free => true,
        };
        home < shape.homes && sized
    }

    /// The same word once more.
    ///
    /// # Errors
    ///
    /// `Memory` where there is none for a copy of its bytes, and never for a freed block.
    pub fn try_clone(&self) -> Result<Word, Memory>
        ensures same { IfOk result (λ word. word ≡ self.now) }
        ensures grows { OnErr result (IsTrue (is_copy self.now)) }
    {
        match self {
            Word::Copy(payload) => Ok(Word::Copy(payload.try_clone()?)),
            Word::Free => Ok(Word::Free),
        }
    }

    /// The numbers of a copy are bytes. It does nothing: the fact is its contract.
    pub fn holds_bytes(&self)
        ensures { HasBytes self.now }
    {
        if let Word::Copy(payload) = self {
            payload.holds_bytes();
        }
    }
}
