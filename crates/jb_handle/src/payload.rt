ghost use Rattle.std.specs.Prelude.{◌≡◌, List, ℕ, ◌-◌, ◌≤◌, length, take, IfOk};
ghost use Rattle.jb_block.specs.Fields.{padded, AreBytes};

use jb_block::{Memory, are_bytes};
use std::alloc::Global;
use std::marker::Model;

/// The content of a block (`b_data`): some first bytes, and zeros after them up to the block's length. Only
/// the first bytes take memory.
#[derive(Debug, Drop)]
pub struct Payload {
    bytes: Vec<u8>,
    len: usize,
}

impl Model for Payload {
    ghost Value = { List ℕ };

    ghost view = { λ a. padded a.len a.bytes.items };

    ghost invariant = { λ a. length a.bytes.items ≤ a.len };
}

impl Payload {
    /// These bytes, and zeros after them up to `len` bytes in all. Takes no memory of its own.
    pub fn padded(bytes: Vec<u8>, len: usize) -> Payload
        requires fits { length bytes.items ≤ len }
        ensures { result ≡ padded len bytes.items }
    {
        Payload { bytes, len }
    }

    /// A whole block's bytes.
    ///
    /// # Errors
    ///
    /// `Memory` where there is none for a copy of them.
    pub fn of(alloc: Global, block: &[u8]) -> Result<Payload, Memory>
        ensures { IfOk result (λ payload. payload ≡ block.now) }
    {
        let bytes = block.to_vec(alloc)?;
        Ok(Payload {
            bytes,
            len: block.len(),
        })
    }

    /// The same bytes once more.
    ///
    /// # Errors
    ///
    /// `Memory` where there is none for a copy of the first bytes.
    pub fn try_clone(&self) -> Result<Payload, Memory>
        ensures { IfOk result (λ payload. payload ≡ self.now) }
    {
        let bytes = self.bytes.clone()?;
        Ok(Payload {
            bytes,
            len: self.len,
        })
    }

    /// The numbers of a payload are bytes. It does nothing: the fact is its contract, for proofs.
    pub fn holds_bytes(&self)
        ensures { AreBytes self.now }
    {
        are_bytes(&self.bytes);
    }

    /// How many bytes the block has, zeros included.
    pub fn len(&self) -> usize
        ensures { result ≡ length self.now }
    {
        self.len
    }

    /// The first four bytes, by which the journal's own blocks are recognized.
    pub fn front(&self) -> [u8; 4]
        requires long { 4 ≤ length self.now }
        ensures { result ≡ take 4 self.now }
    {
        let mut front = [0; 4];
        let kept = self.bytes.len().min(front.len());
        front[..kept].copy_from_slice(&self.bytes[..kept]);
        front
    }

    /// Writes the bytes over a block of their number.
    pub fn copy_into(&self, block: &mut [u8])
        requires fits { length block.old ≡ length self.now }
        ensures { block.new ≡ self.now }
    {
        let (front, back) = block.split_at_mut(self.bytes.len());
        front.copy_from_slice(&self.bytes);
        back.fill(0);
    }
}
