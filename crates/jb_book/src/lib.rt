//! What the two locks of a desk guard: the book of open, stopped and settled handles, and the journal with its
//! marks.
//!
//! # Claims
//! The journal that the second lock of a desk guards, and its marks. What a commit, a checkpoint, a read and a taking
//! of entries have done to it is in the rows of [jb_desk](docs/made/CLAIMS.md#jb_desk), of the calls that make them
//! under that lock: the clauses are in the same words.
//!
//! Each call of a book says by a clause (`does`) that it is a call of such a list as `laws::every_run` speaks of. What
//! a row says of the disk it says where the start is known (`is_known` of [`Begun`](crates/jb_book/specs/Origin.antt)):
//! who starts a desk picks it, and `run` of jb_journal knows it.
#![tactic(auto)]

mod book;
mod checkpoint;
mod fault;
mod follow;
mod journal_state;
pub mod laws;
pub mod mark_laws;
mod opening;
mod origin;
mod register;
mod room;
mod sights;

pub use book::Book;
pub use checkpoint::CheckpointRound;
pub use fault::{BeginFault, EnqueueFault, WrongBatch};
pub use follow::end_of;
pub use journal_state::JournalState;
pub use opening::open;
pub use origin::{Marks, Origin};
pub use register::Register;
pub use sights::{Histories, Sights};
