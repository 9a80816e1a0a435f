//! What the worker answers.
use crate::command::Reply;
use crate::failed::Failed;

/// What the worker has done of its commands.
#[derive(Drop)]
pub struct Served {
    /// What it replied to the first of them, in their order. The last reply may not have been written.
    pub replies: Vec<Reply>,
    /// Why it ended before it had obeyed all commands and written each reply, where it did.
    pub ended: Result<(), Failed>,
}
