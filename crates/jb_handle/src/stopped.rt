use crate::words::Words;

/// The place of a handle in the order of stops, from 0 on.
pub type Ticket = u64;

/// A handle that its thread has stopped (`jbd2_journal_stop`): its words wait to be committed.
#[derive(Debug, Drop)]
pub struct Stopped {
    /// Its place in the order of stops, from 0 on.
    pub ticket: Ticket,
    /// What it leaves at the home blocks that it touched.
    pub words: Words,
}
