//! The commands, and what the store replies to them.
ghost use Rattle.std.specs.Prelude.{◌≢◌, IfOk};
ghost use Rattle.example_store.specs.Commands.{HasKey};

use crate::failed::Failed;
use std::alloc::{AllocError, Global};

/// What the store is asked to do.
#[derive(Clone, Copy, Debug, PartialEq, Eq)]
pub enum Command {
    /// Puts a value at a key.
    Put { key: u64, value: u64 },
    /// Tells the value at a key.
    Get { key: u64 },
    /// Takes a key out.
    Delete { key: u64 },
}

/// What the store replies to a command that it has obeyed.
#[derive(Clone, Copy)]
pub enum Reply {
    /// The key has the value that was put.
    Stored { key: u64 },
    /// The key has this value, or none.
    Found { key: u64, value: Option<u64> },
    /// The key is taken out.
    Deleted { key: u64 },
}

impl Reply {
    /// The reply as a line.
    ///
    /// # Errors
    /// Where there is no memory for it.
    pub fn line(self, alloc: Global) -> Result<String, AllocError> {
        match self {
            Reply::Stored { key } => format!(in alloc; "put {key}\n"),
            Reply::Found { key, value } => match value {
                Some(value) => format!(in alloc; "{key} has {value}\n"),
                None => format!(in alloc; "{key} has nothing\n"),
            },
            Reply::Deleted { key } => format!(in alloc; "deleted {key}\n"),
        }
    }
}

/// The command of a line.
///
/// # Errors
/// `Command` where it is none: 0 is no key, and no value.
pub fn parse(line: &str) -> Result<Command, Failed>
    ensures { IfOk result HasKey }
{
    let mut words = line.split_whitespace();
    let command = (words.next(), words.next(), words.next(), words.next());
    match command {
        (Some("put"), Some(key), Some(value), None) => Ok(Command::Put {
            key: number(key)?,
            value: number(value)?,
        }),
        (Some("get"), Some(key), None, None) => Ok(Command::Get { key: number(key)? }),
        (Some("delete"), Some(key), None, None) => Ok(Command::Delete { key: number(key)? }),
        _ => Err(Failed::Command),
    }
}

/// The number that a word is, from 1 on.
fn number(word: &str) -> Result<u64, Failed>
    ensures { IfOk result (λ number. number ≢ 0) }
{
    match word.parse::<u64>() {
        Ok(number) if number != 0 => Ok(number),
        _ => Err(Failed::Command),
    }
}
