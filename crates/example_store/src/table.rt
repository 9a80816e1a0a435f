//! One home block as a table of keys and values.
ghost use Rattle.std.specs.Int.{w64, to_be_bytes};
ghost use Rattle.std.specs.Prelude.{◌+◌, ◌++◌, ◌≡◌, ◌<◌, ◌≤◌, ◌^◌, drop, length, take, None, Some, OnOk, nat_eq};
ghost use Rattle.std.specs.List.{position};
ghost use Rattle.example_store.specs.Tables.{ChangesValue, slot_number, slots_in, value_in};

use crate::failed::Failed;

/// How many bytes a home block has, and how many slots that makes.
pub const BYTES: usize = 1024;

const SLOTS: usize = 64;

/// One home block.
pub type Block = [u8; BYTES];

/// A place for a key and its value; it is free where the key is 0.
#[derive(Clone, Copy, Debug, PartialEq, Eq)]
pub struct Slot {
    pub key: u64,
    pub value: u64,
}

const FREE: Slot = Slot { key: 0, value: 0 };

/// The keys of one home block, with their values.
#[derive(Clone, Copy)]
pub struct Table {
    slots: [Slot; SLOTS],
}

impl Table {
    ghost use Rattle.std.specs.Prelude.{◌≡◌, None, Some, OnOk, nat_eq};
    ghost use Rattle.std.specs.List.{position};
    ghost use Rattle.example_store.specs.Tables.{ChangesValue, slots_in, value_in};

    /// The table that a home block has. A block that was never written has no keys.
    pub fn of_block(block: &Block) -> Table
        ensures { result.slots ≡ slots_in 64 block.now }
    {
        let mut slots = [FREE; SLOTS];
        for at in 0..SLOTS {
            slots[at] = Slot {
                key: number_at(block, 16 * at),
                value: number_at(block, 16 * at + 8),
            };
        }
        Table { slots }
    }

    /// The home block of the table.
    pub fn block(&self) -> Block
        ensures { slots_in 64 result ≡ self.now.slots }
    {
        let mut block: Block = [0; BYTES];
        for at in 0..SLOTS {
            let slot = self.slots[at];
            put_number(&mut block, 16 * at, slot.key);
            put_number(&mut block, 16 * at + 8, slot.value);
        }
        block
    }

    /// The value at a key.
    pub fn get(&self, key: u64) -> Option<u64>
        ensures { result ≡ value_in self.now.slots key }
    {
        let at = self.place(key)?;
        Some(self.slots[at].value)
    }

    /// The first slot that has this key.
    fn place(&self, key: u64) -> Option<usize>
        ensures { result ≡ position (λ slot. nat_eq slot.key key) self.now.slots }
    {
        self.slots.iter().position(|slot| slot.key == key)
    }

    /// Puts a value at a key, in its slot or in a free one.
    ///
    /// # Errors
    /// `NoRoom` where the key has no slot, and no slot is free.
    pub fn put(&mut self, key: u64, value: u64) -> Result<(), Failed>
        ensures { OnOk result (ChangesValue key (Some value) (value_in self.old.slots) (value_in self.new.slots)) }
    {
        let at = match self.place(key) {
            Some(own) => own,
            None => match self.place(0) {
                Some(free) => free,
                None => return Err(Failed::NoRoom(SLOTS)),
            },
        };
        self.slots[at] = Slot { key, value };
        Ok(())
    }

    /// Takes a key out.
    pub fn delete(&mut self, key: u64)
        ensures { ChangesValue key None (value_in self.old.slots) (value_in self.new.slots) }
    {
        for at in 0..SLOTS {
            if self.slots[at].key == key {
                self.slots[at] = FREE;
            }
        }
    }
}

/// The number in the eight bytes from this one on.
fn number_at(block: &Block, at: usize) -> u64
    requires { at + 8 ≤ length block.now }
    ensures { result ≡ slot_number block.now at }
{
    let mut bytes = [0; 8];
    bytes.copy_from_slice(&block[at..at + 8]);
    u64::from_be_bytes(bytes)
}

/// Writes the number into the eight bytes from this one on; all other bytes stay.
fn put_number(block: &mut Block, at: usize, number: u64)
    requires { at + 8 ≤ length block.old }
    ensures written { block.new ≡ take at block.old ++ (to_be_bytes w64 number ++ drop (at + 8) block.old) }
    ensures fits { number < 2 ^ 64 }
{
    block[at..at + 8].copy_from_slice(&number.to_be_bytes());
}
