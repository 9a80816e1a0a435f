//! The commands by their names.
ghost use Rattle.std.specs.Prelude.{◌≡◌};
ghost use Rattle.jb_args.specs.Rows.{app_named, app_of_row};

use super::CommandRow;
use super::table::{
    CAT, CHECK, COMPLETIONS, COST, DUMP, FORMAT, LOAD, PLAN, RECOVER, RENUMBER, WIDEN,
};
use super::topics::{DIAGNOSTICS, FILES, LOCKS, SETTINGS, STATUSES};

/// A command of `jb`, or a topic of its help.
#[derive(Clone, Copy)]
pub(crate) enum CommandName {
    /// `jb cost`.
    Cost,
    /// `jb plan`.
    Plan,
    /// `jb check`.
    Check,
    /// `jb dump`.
    Dump,
    /// `jb cat`.
    Cat,
    /// `jb format`.
    Format,
    /// `jb load`.
    Load,
    /// `jb recover`.
    Recover,
    /// `jb renumber`.
    Renumber,
    /// `jb widen`.
    Widen,
    /// `jb completions`.
    Completions,
    /// `jb help files`.
    Files,
    /// `jb help locks`.
    Locks,
    /// `jb help settings`.
    Settings,
    /// `jb help statuses`.
    Statuses,
    /// `jb help diagnostics`.
    Diagnostics,
}

/// The commands in the order of the help.
pub(crate) static COMMANDS: [CommandName; 11] = [
    CommandName::Cost,
    CommandName::Plan,
    CommandName::Check,
    CommandName::Dump,
    CommandName::Cat,
    CommandName::Format,
    CommandName::Load,
    CommandName::Recover,
    CommandName::Renumber,
    CommandName::Widen,
    CommandName::Completions,
];

/// The topics of the help.
pub(super) static TOPICS: [CommandName; 5] = [
    CommandName::Files,
    CommandName::Locks,
    CommandName::Settings,
    CommandName::Statuses,
    CommandName::Diagnostics,
];

/// The row of a command.
pub(crate) fn row_of<'a>(name: CommandName) -> &'a CommandRow<'a>
    ensures { app_of_row result.now ≡ app_named name }
{
    match name {
        CommandName::Cost => &COST,
        CommandName::Plan => &PLAN,
        CommandName::Check => &CHECK,
        CommandName::Dump => &DUMP,
        CommandName::Cat => &CAT,
        CommandName::Format => &FORMAT,
        CommandName::Load => &LOAD,
        CommandName::Recover => &RECOVER,
        CommandName::Renumber => &RENUMBER,
        CommandName::Widen => &WIDEN,
        CommandName::Completions => &COMPLETIONS,
        CommandName::Files => &FILES,
        CommandName::Locks => &LOCKS,
        CommandName::Settings => &SETTINGS,
        CommandName::Statuses => &STATUSES,
        CommandName::Diagnostics => &DIAGNOSTICS,
    }
}
