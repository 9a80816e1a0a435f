//! The words and options of a command.
ghost use Rattle.std.specs.Prelude.{◌≡◌, false};
ghost use Rattle.clap.specs.Words.{rule_of};
ghost use Rattle.jb_args.specs.Rows.{number_parser, rule_of_word};

use clap::{Arg, ArgAction, value_parser};
use std::alloc::Global;

/// A word or an option that a command takes.
#[derive(Clone, Copy)]
pub(crate) struct CommandWord<'a> {
    /// Its name, which most options have after two hyphens.
    pub(crate) name: &'a str,
    /// What it is.
    pub(crate) kind: WordKind<'a>,
    /// What the help says of it.
    pub(crate) help: &'a str,
}

/// What a word or an option is. A number is below 2^64.
#[derive(Clone, Copy)]
pub(crate) enum WordKind<'a> {
    /// A word that has to be there.
    Word,
    /// A number that has to be there.
    NumberWord,
    /// An option with a text, which usage shows by this name.
    Text(&'a str),
    /// The same, with this text where it is left out.
    TextOr(&'a str, &'a str),
    /// An option with a number N.
    Number,
    /// The same, where it has to be there.
    RequiredNumber,
    /// An option with a number, which usage shows by this name, and this number where it is left out.
    NumberOr(&'a str, &'a str),
    /// `-n N`, with a number N, and 1 where it is left out.
    Count,
    /// An option that takes no value.
    Flag,
}

/// The argument of clap for a word.
pub(crate) fn arg_of<'a>(alloc: Global, word: &CommandWord<'a>) -> Arg<'a>
    ensures rule { rule_of result ≡ rule_of_word word.now }
    ensures own { result.global ≡ false }
{
    let name = word.name;
    let arg = Arg::new(alloc, name).help(word.help);
    match word.kind {
        WordKind::Word => arg.required(true),
        WordKind::NumberWord => number(arg.required(true)),
        WordKind::Text(value) => arg.long(name).value_name(value),
        WordKind::TextOr(value, text) => arg.long(name).value_name(value).default_value(text),
        WordKind::Number => number(arg.long(name).value_name("N")),
        WordKind::RequiredNumber => number(arg.long(name).value_name("N").required(true)),
        WordKind::NumberOr(value, text) => {
            number(arg.long(name).value_name(value).default_value(text))
        }
        WordKind::Count => number(arg.short('n').value_name("N").default_value("1")),
        WordKind::Flag => arg.long(name).action(ArgAction::SetTrue),
    }
}

/// The argument, with a number for its value.
fn number<'a>(arg: Arg<'a>) -> Arg<'a>
    ensures rule { rule_of result ≡ record (rule_of arg.entry) { parser = number_parser } }
    ensures own { result.global ≡ arg.entry.global }
{
    arg.value_parser(value_parser!(u64))
}
