//! The whole program over its words and its three streams, whatever they are.
ghost use Rattle.std.specs.Prelude.{◌≡◌, MatchResult, None, map, true};
ghost use Rattle.jb_args.specs.Settings.{second_part};
ghost use Rattle.jb_text.specs.Puts.{PutsPart};
ghost use Rattle.jb_commands.specs.Ends.{exit_status, of_fault};
ghost use Rattle.jb_commands.specs.Faults.{line_of};
ghost use Rattle.jb_commands.specs.declared.fault.CommandFault.TheVariants.{Memory as CommandMemory};
ghost use Rattle.jb_tool.specs.Program.{Advises, AnswersGiven, AnswersWords, EndsProgram, Helps, RefusesKind};
ghost use Rattle.jb_tool.specs.Program.{settings_given};

use crate::command_line::run;
use jb_args::{SecondPart, Settings, put_hint, put_reason, settings_in, show_help, words_left};
use jb_commands::{CommandFault, ProgramEnd, refuse_words};
use std::alloc::Global;
use std::convert::AsStr;
use std::fs::File;
use std::io::{ErrorKind, Read, Write};
use std::rt::Files;
use std::sync::Wait;
use std::thread::Threads;
use std::time::Clock;

/// Which streams are terminals.
#[derive(Clone, Copy)]
pub struct Terminals {
    /// Whether standard input is one.
    pub input: bool,
    /// Whether standard error is one.
    pub err: bool,
}

/// Runs the program with these words, its name left out, or with the reason for which the system has not handed them
/// over, and gives its exit status: what was answered, and as much of the second line after it as the settings and a
/// terminal ask for. The settings are those that were given, as the words change them; a command has the words that are
/// left.
pub fn run_program<
    R: Files<File = File> + AllocGlobal + Threads + Wait + Clock + Sync,
    S: AsStr,
    I: Read,
    O: Write,
    E: Write,
>(
    rt: &R,
    words: Result<&[S], ErrorKind>,
    given: Settings,
    terminals: Terminals,
    input: &mut I,
    out: &mut O,
    err: &mut E,
) -> u8
    /// The whole program, over any words and streams: its status is that of the answer, or a finer one where the
    /// settings ask for it, both outputs are as the answer has left them, and the second line of its hint follows, as
    /// far as standard error took it: whole where the settings or a terminal ask for that, and else the system's reason
    /// alone, unless they ask for neither.
    ensures ends { EndsProgram (settings_given (λ w. map S.text w.now) given words.entry) terminals.err
        (λ old new ended. MatchResult words.entry
        (λ ws. AnswersGiven (settings_given (λ w. map S.text w.now) given words.entry).form
        (map S.text ws.now) terminals.input (I.remaining input.old) old new ended)
        (λ kind. RefusesKind kind old new ended))
        (record { out = O.contents out.old; err = E.contents err.old })
        (record { out = O.contents out.new; err = E.contents err.new }) result }
{
    let settings = settings_of(given, words);
    let ended = answered(rt, words, settings, terminals.input, input, out, err);
    finish(ended, settings, terminals.err, err)
}

/// The settings that were given, as the words change them, where there are words.
fn settings_of<S: AsStr>(given: Settings, words: Result<&[S], ErrorKind>) -> Settings
    ensures { result ≡ settings_given (λ w. map S.text w.now) given words.entry }
{
    match words {
        Ok(words) => settings_in(given, words),
        Err(_) => given,
    }
}

/// Writes as much of the second line that an end has as is asked for, and gives the exit status. A fault of the writer
/// is ignored.
fn finish<E: Write>(ended: ProgramEnd, settings: Settings, on_terminal: bool, err: &mut E) -> u8
    ensures status { result ≡ exit_status settings.statuses ended }
    ensures advises { Advises (second_part settings on_terminal) ended.hint (E.contents err.old)
        (E.contents err.new) }
{
    advise(settings.second_part(on_terminal), ended, err);
    ended.exit_status(settings.statuses)
}

/// Writes so much of the second line that an end has.
fn advise<E: Write>(part: SecondPart, ended: ProgramEnd, err: &mut E)
    ensures advises { Advises part ended.hint (E.contents err.old) (E.contents err.new) }
{
    match (part, ended.hint) {
        (SecondPart::Whole, Some(hint)) => {
            let _ignored = put_hint(err, hint);
        }
        (SecondPart::Reason, Some(hint)) => {
            let _ignored = put_reason(err, hint);
        }
        (SecondPart::Nothing, Some(_)) => {}
        (_, None) => {}
    }
}

/// Answers these words, or the reason for which there are none. `at_terminal` is whether standard input is a terminal.
fn answered<
    R: Files<File = File> + AllocGlobal + Threads + Wait + Clock + Sync,
    S: AsStr,
    I: Read,
    O: Write,
    E: Write,
>(
    rt: &R,
    words: Result<&[S], ErrorKind>,
    settings: Settings,
    at_terminal: bool,
    input: &mut I,
    out: &mut O,
    err: &mut E,
) -> ProgramEnd
    ensures answers { MatchResult words.entry
        (λ words. AnswersGiven settings.form (map S.text words.now) at_terminal (I.remaining input.old)
        (record { out = O.contents out.old; err = E.contents err.old })
        (record { out = O.contents out.new; err = E.contents err.new }) result)
        (λ kind. RefusesKind kind
        (record { out = O.contents out.old; err = E.contents err.old })
        (record { out = O.contents out.new; err = E.contents err.new }) result) }
{
    match words {
        Ok(words) => answered_given(rt, words, settings, at_terminal, input, out, err),
        Err(kind) => refuse_words(kind, err),
    }
}

/// Takes the settings off the words, and runs `jb` with those that are left.
fn answered_given<
    R: Files<File = File> + AllocGlobal + Threads + Wait + Clock + Sync,
    S: AsStr,
    I: Read,
    O: Write,
    E: Write,
>(
    rt: &R,
    words: &[S],
    settings: Settings,
    at_terminal: bool,
    input: &mut I,
    out: &mut O,
    err: &mut E,
) -> ProgramEnd
    ensures answers { AnswersGiven settings.form (map S.text words.now) at_terminal (I.remaining input.old)
        (record { out = O.contents out.old; err = E.contents err.old })
        (record { out = O.contents out.new; err = E.contents err.new }) result }
{
    match words_left(rt.alloc(), words) {
        Ok(left) => answered_words(rt, left.as_slice(), settings, at_terminal, input, out, err),
        Err(_) => out_of_memory(err),
    }
}

/// Runs `jb` with these words; with no words, and standard input a terminal, writes its help.
fn answered_words<
    R: Files<File = File> + AllocGlobal + Threads + Wait + Clock + Sync,
    I: Read,
    O: Write,
    E: Write,
>(
    rt: &R,
    words: &[&str],
    settings: Settings,
    at_terminal: bool,
    input: &mut I,
    out: &mut O,
    err: &mut E,
) -> ProgramEnd
    ensures answers { AnswersWords settings.form (map (λ word. word.now) words.now) at_terminal (I.remaining input.old)
        (record { out = O.contents out.old; err = E.contents err.old })
        (record { out = O.contents out.new; err = E.contents err.new }) result }
{
    if at_terminal && words.is_empty() {
        return help(rt.alloc(), err);
    }
    run(rt, words, settings, input, out, err)
}

/// Writes the short help, as clap does where words are missing, and gives the end of the program.
fn help<E: Write>(alloc: Global, err: &mut E) -> ProgramEnd
    ensures helps { Helps (E.contents err.old) (E.contents err.new) result }
{
    match show_help(alloc, err) {
        Ok(()) => ProgramEnd::with_status(2),
        Err(_) => out_of_memory(err),
    }
}

/// Says that memory ran out, and gives the end of the program.
fn out_of_memory<E: Write>(err: &mut E) -> ProgramEnd
    ensures told { PutsPart (E.contents err.old) (E.contents err.new) (line_of None CommandMemory) }
    ensures ends { result ≡ of_fault CommandMemory }
{
    CommandFault::Memory.tell(None, err);
    ProgramEnd::of_fault(CommandFault::Memory)
}
