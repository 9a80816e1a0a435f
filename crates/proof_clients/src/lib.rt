//! Clients of a disk, a journal, a book and its threads: what the public clauses give a user, proved of a few calls
//! one after another.
//!
//! # Claims
//! Over honest disks. The proofs use the clauses of public calls and on public laws, and cite a few lemmas of the
//! crates below. Nothing is said of a home whose last word is free, until it is written in its place.
#![tactic(auto)]

mod asking;
mod calls;
mod closed;
mod commit;
mod cut_run;
mod cut_short;
pub mod examples;
mod life;
mod lives;
mod recovering;
mod reuse;
mod telling;
mod three;
mod traced;
mod two;
mod two_files;
mod workers;

pub use asking::{ask_file, run_in_file};
pub use closed::commit_and_close;
pub use cut_run::run_until;
pub use cut_short::{commit_until, recover_until};
pub use lives::{Life, Lived, PowerFailure, run_lives};
pub use recovering::recover_file;
pub use reuse::reuse_home;
pub use telling::{Found, TellingWorkers};
pub use three::commit_three;
pub use two::two_handles;
pub use two_files::recover_files;
pub use workers::two_workers;
