ghost use Rattle.std.specs.Prelude.{◌≡◌, IfOk, false};
ghost use Rattle.clap.specs.Words.{App, app_of, new_app, with_subcommand};
ghost use Rattle.clap.specs.declared.builder.command.Command.TheViews.{out-Command as fields_of};
ghost use Rattle.jb_args.specs.App.{jb_app, jb_top};
ghost use Rattle.jb_args.specs.Rows.{app_named, with_commands as with_apps, with_kind, with_row_words as with_rules};

mod command_name;
mod shared;
mod table;
mod texts;
mod topics;
mod word;

use clap::Command;
use command_name::TOPICS;
pub(crate) use command_name::{COMMANDS, CommandName, row_of};
use std::alloc::{AllocError, Global};
use word::arg_of;
pub(crate) use word::{CommandWord, WordKind};

/// The version of the program.
const VERSION: &str = "0.1.0";

/// The same, with what it is proved by. Nothing tells a program by whom it was built.
const LONG_VERSION: &str = "0.1.0
made for rattle-kit-13b logic dac8208d650f15bf, or a later kit of this logic
proved where rt run, rt test or rt ci has built it; rt try proves nothing";

/// What a row of the table is.
#[derive(Clone, Copy)]
pub(crate) enum RowKind {
    /// A command.
    Command,
    /// A topic, which `jb help` alone shows.
    Topic,
}

/// A command, with its words and options, or a topic of the help.
#[derive(Clone, Copy)]
pub(crate) struct CommandRow<'a> {
    /// Its name.
    pub(crate) name: &'a str,
    /// Whether it is a command or a topic.
    kind: RowKind,
    /// What the help of `jb` says of it.
    about: &'a str,
    /// What is at the end of its long help; of a topic its text.
    more: &'a str,
    /// What it takes, in the order of the help.
    pub(crate) words: &'a [CommandWord<'a>],
}

/// The command with these words, one after the other.
fn with_words<'a>(
    alloc: Global,
    command: Command<'a>,
    words: &[CommandWord<'a>],
) -> Result<Command<'a>, AllocError>
    requires { (fields_of command).has_globals ≡ false }
    ensures app { IfOk result (λ c. app_of c ≡ with_rules (app_of command.entry) words.now) }
    ensures own { IfOk result (λ c. (fields_of c).has_globals ≡ false) }
{
    let mut made = command;
    for word in words {
        made = made.arg(arg_of(alloc, word))?;
    }
    Ok(made)
}

/// A command without words.
fn bare<'a>(alloc: Global, name: &'a str, about: &'a str, more: &'a str) -> Command<'a>
    ensures app { app_of result ≡ new_app name.entry.now }
    ensures own { (fields_of result).has_globals ≡ false }
{
    Command::new(alloc, name).about(about).after_long_help(more)
}

/// The command as one of this kind: a topic has this text for its help, and stands in no list of commands.
fn of_kind<'a>(command: Command<'a>, kind: RowKind, text: &'a str) -> Command<'a>
    requires { (fields_of command).has_globals ≡ false }
    ensures app { app_of result ≡ with_kind kind (app_of command.entry) }
    ensures own { (fields_of result).has_globals ≡ false }
{
    match kind {
        RowKind::Command => command,
        RowKind::Topic => command
            .override_help(text)
            .hide(true)
            .arg_required_else_help(true),
    }
}

/// The command of this name, with its words.
fn command_of<'a>(alloc: Global, name: CommandName) -> Result<Command<'a>, AllocError>
    ensures app { IfOk result (λ c. app_of c ≡ app_named name) }
    ensures own { IfOk result (λ c. (fields_of c).has_globals ≡ false) }
{
    let row = row_of(name);
    let command = bare(alloc, row.name, row.about, row.more);
    with_words(alloc, of_kind(command, row.kind, row.more), row.words)
}

// What an error leaves over is dropped by a call: at the end of a scope each field is a step of its own to prove.

/// `jb` with one more command, where that could be made.
fn also<'a>(
    jb: Command<'a>,
    command: Result<Command<'a>, AllocError>,
) -> Result<Command<'a>, AllocError>
    requires jb { (fields_of jb).has_globals ≡ false }
    requires command { IfOk command (λ c. (fields_of c).has_globals ≡ false) }
    ensures app { (more : App) → IfOk command.entry (λ c. app_of c ≡ more)
        → IfOk result (λ c. app_of c ≡ with_subcommand (app_of jb.entry) more.top) }
    ensures own { IfOk result (λ c. (fields_of c).has_globals ≡ false) }
{
    match command {
        Ok(command) => jb.subcommand(command),
        Err(error) => {
            drop(jb);
            Err(error)
        }
    }
}

/// `jb` with these commands, one after the other.
fn with_commands<'a>(
    alloc: Global,
    jb: Command<'a>,
    names: &[CommandName],
) -> Result<Command<'a>, AllocError>
    requires { (fields_of jb).has_globals ≡ false }
    ensures app { IfOk result (λ c. app_of c ≡ with_apps (app_of jb.entry) names.now) }
    ensures own { IfOk result (λ c. (fields_of c).has_globals ≡ false) }
{
    let mut made = jb;
    for name in names {
        made = also(made, command_of(alloc, *name))?;
    }
    Ok(made)
}

/// `jb` without its commands.
fn jb_alone<'a>(alloc: Global) -> Result<Command<'a>, AllocError>
    ensures app { IfOk result (λ c. app_of c ≡ jb_top) }
    ensures own { IfOk result (λ c. (fields_of c).has_globals ≡ false) }
{
    bare(alloc, "jb", "A block journal in jbd2's format", topics::JB)
        .after_help(topics::TOPICS)
        .no_binary_name(true)
        .version(VERSION)
        .long_version(LONG_VERSION)
        .subcommand_required(true)
        .bin_name("jb")
}

/// The command line of `jb`, as clap reads it.
pub fn jb_command<'a>(alloc: Global) -> Result<Command<'a>, AllocError>
    ensures app { IfOk result (λ c. app_of c ≡ jb_app) }
    ensures own { IfOk result (λ c. (fields_of c).has_globals ≡ false) }
{
    let jb = with_commands(alloc, jb_alone(alloc)?, &COMMANDS)?;
    with_commands(alloc, jb, &TOPICS)
}
