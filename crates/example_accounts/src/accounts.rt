//! The accounts: one in each home block, its balance in the first eight bytes.
ghost use Rattle.std.specs.Int.{w64, to_be_bytes};
ghost use Rattle.std.specs.Prelude.{◌+◌, ◌++◌, ◌<◌, ◌≡◌, ◌≤◌, ◌^◌, ◌↔◌, MatchOption, IsTrue, OnOk, drop, sum};
ghost use Rattle.jb_handle.specs.Handle.{changes_of};
ghost use Rattle.example_accounts.specs.Accounts.{PutsBalance, SaysBalance, balance_in, opening_balances};

use jb_journal::{BlockSize, Handle, TouchFault};

/// How many accounts there are.
pub const ACCOUNTS: usize = 100;

/// What each account is opened with.
const OPENING: u64 = 1_000;

/// The size of a block, and how many bytes that is.
pub const SIZE: BlockSize = BlockSize::OneKib;

const BYTES: usize = 1024;

/// What each account holds.
pub type Balances = [u64; ACCOUNTS];

/// One home block.
pub type Block = [u8; BYTES];

/// What all accounts hold together; `None` where that does not fit 64 bits.
pub fn total(balances: &Balances) -> Option<u64>
    ensures { MatchOption result (2 ^ 64 ≤ sum balances.now) (λ held. held ≡ sum balances.now) }
{
    let mut held: u64 = 0;
    for account in 0..ACCOUNTS {
        held = held.checked_add(balances[account])?;
    }
    Some(held)
}

/// Whether no account holds anything.
pub fn are_empty(balances: &Balances) -> bool
    ensures { IsTrue result ↔ sum balances.now ≡ 0 }
{
    match total(balances) {
        Some(held) => held == 0,
        None => false,
    }
}

/// What an account holds that has this home block.
pub fn balance(block: &Block) -> u64
    ensures { result ≡ balance_in block.now }
{
    let mut bytes = [0; 8];
    bytes.copy_from_slice(&block[..8]);
    u64::from_be_bytes(bytes)
}

/// Writes the balance into the first eight bytes of a block; all others stay.
fn put_balance(block: &mut Block, balance: u64)
    ensures written { block.new ≡ to_be_bytes w64 balance ++ drop 8 block.old }
    ensures fits { balance < 2 ^ 64 }
{
    block[..8].copy_from_slice(&balance.to_be_bytes());
}

/// The home block of an account that holds this.
fn block_of(balance: u64) -> Block
    ensures { balance_in result ≡ balance }
{
    let mut block: Block = [0; BYTES];
    put_balance(&mut block, balance);
    block
}

/// Changes the balance of an account, as a part of a handle.
///
/// # Errors
/// Those of the handle.
pub fn put(handle: &mut Handle<()>, account: usize, balance: u64) -> Result<(), TouchFault>
    ensures { OnOk result (PutsBalance account balance (changes_of handle.old).words (changes_of handle.new).words) }
{
    handle.write(account as u64, &block_of(balance))
}

/// What each account holds once all are opened.
pub fn opening() -> Balances
    ensures { result ≡ opening_balances }
{
    [OPENING; ACCOUNTS]
}

/// Opens all accounts, as a part of a handle.
///
/// # Errors
/// Those of the handle.
pub fn open_all(handle: &mut Handle<()>) -> Result<(), TouchFault>
    ensures { OnOk result ((account : _) → account < 100 → SaysBalance (changes_of handle.new).words account 1000) }
{
    for account in 0..ACCOUNTS {
        put(handle, account, OPENING)?;
    }
    Ok(())
}
