//! What a handle has made of the accounts.
use crate::accounts::Balances;

/// What the handle with this ticket has made of the accounts.
#[derive(Clone, Copy)]
pub struct Posting {
    /// The ticket of the handle.
    pub ticket: u64,
    /// What the accounts held before it.
    pub before: Balances,
    /// What they hold after it.
    pub after: Balances,
}
