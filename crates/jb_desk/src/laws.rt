//! Laws over the definitions alone: those of [`jb_book`], and what follows for a ticket that was waited for.

pub use jb_book::laws::{
    commit_tells, every_run, none_after_at_desk, shadowed, step_shadowed, takes_least, tied,
};
pub use jb_book::mark_laws::{shown_is_given, stays};
