//! Moves of money between two accounts.
ghost use Rattle.std.specs.Prelude.{◌+◌, ◌<◌, ◌≡◌, ◌≤◌, ◌⊎◌, ◌^◌, IfNone, IfSome, slice_index};
ghost use Rattle.example_accounts.specs.Accounts.{IsMove, moved_by};

use crate::accounts::{ACCOUNTS, Balances};

/// How much is to be moved, and between which accounts.
#[derive(Clone, Copy)]
pub struct Wish {
    /// The account that it is taken from.
    pub from: usize,
    /// The account that it is added to.
    pub to: usize,
    /// How much is moved.
    pub amount: u64,
}

/// A move of money: what two accounts hold after it.
#[derive(Clone, Copy)]
pub struct Move {
    /// The account that it is taken from.
    pub from: usize,
    /// The account that it is added to.
    pub to: usize,
    /// What the first one holds then.
    pub less: u64,
    /// What the second one holds then.
    pub more: u64,
}

impl Wish {
    /// The wish that a number stands for: of 1 to 50, between any two accounts.
    pub fn drawn(draw: u64) -> Wish
        ensures within { (result.from < 100) × (result.to < 100) }
        ensures some { (0 < result.amount) × (result.amount ≤ 50) }
    {
        Wish {
            from: place(draw >> 8),
            to: place(draw >> 24),
            amount: (draw >> 40) % 50 + 1,
        }
    }

    /// The move that is wished for, of what the accounts hold; `None` where it is between an account and itself, the
    /// first one does not hold as much, or what the second one would hold does not fit 64 bits.
    pub fn granted(self, before: &Balances) -> Option<Move>
        requires within { (self.from < 100) × (self.to < 100) }
        requires some { 0 < self.amount }
        ensures moved { IfSome result (IsMove before.now) }
        ensures same { IfSome result (λ m. (m.from ≡ self.from) × (m.to ≡ self.to)
            × (m.less + self.amount ≡ slice_index before.now self.from)) }
        ensures none { IfNone result ((self.from ≡ self.to) ⊎ (slice_index before.now self.from < self.amount)
            ⊎ (2 ^ 64 ≤ slice_index before.now self.to + self.amount)) }
    {
        let Wish { from, to, amount } = self;
        if from == to {
            return None;
        }
        let less = before[from].checked_sub(amount)?;
        let more = before[to].checked_add(amount)?;
        Some(Move {
            from,
            to,
            less,
            more,
        })
    }
}

impl Move {
    /// What the accounts hold after it.
    pub fn after(self, before: &Balances) -> Balances
        requires { (self.from < 100) × (self.to < 100) }
        ensures { result ≡ moved_by self before.now }
    {
        let mut after = *before;
        after[self.from] = self.less;
        after[self.to] = self.more;
        after
    }
}

/// An account, of any number.
fn place(draw: u64) -> usize
    ensures { result < 100 }
{
    (draw % ACCOUNTS as u64) as usize
}
