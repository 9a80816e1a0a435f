//! How long a journal has to be for the handles of a program.
#![tactic(auto)]

mod lengths;

pub use lengths::{credits_within, least_journal};
