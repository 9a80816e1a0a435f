//! What a refusal of a batch says in words, which no clause names.

use crate::scripts::Refusal;
use jb_deck::BatchFault;
use std::alloc::Global;

/// Whether a refusal says so in words.
pub fn says(alloc: Global, fault: &BatchFault, why: Refusal) -> bool {
    match format!(in alloc; "{fault}") {
        Ok(said) => is_said(alloc, said.as_str(), why),
        Err(_) => false,
    }
}

/// Whether these are the words of a refusal.
fn is_said(alloc: Global, said: &str, why: Refusal) -> bool {
    match why {
        Refusal::WrongTicket(ticket) => is_ticket(alloc, said, ticket),
        _ => said == words_of(why),
    }
}

/// Whether these are the words of a batch that does not begin at this ticket.
fn is_ticket(alloc: Global, said: &str, ticket: u64) -> bool {
    match format!(in alloc;
        "the batch does not begin at ticket {ticket}; commit the one before it"
    ) {
        Ok(wanted) => said == wanted.as_str(),
        Err(_) => false,
    }
}

/// The words of a refusal that names no number.
fn words_of(why: Refusal) -> &'static str {
    match why {
        Refusal::Aborted =>
            "the journal has failed; see to its disk, then start the program anew and recover it",
        Refusal::WrongTicket(_) => "the batch does not begin at a ticket",
        Refusal::OtherShape => {
            "the batch is for a journal of another shape; prepare it for this one"
        }
        Refusal::NumbersSpent => {
            "no transaction number is left; close the journal and renumber it"
        }
        Refusal::Memory => "out of memory; commit the batch again",
        Refusal::DeviceFault(_) =>
            "the disk failed; see to the cause, then start the program anew and recover the journal",
    }
}
