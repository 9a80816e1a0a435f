ghost use Rattle.std.specs.Prelude.{◌≡◌, ◌⊎◌, IfErr, IfOk, IsErr, None, Some, [], map, option_map};
ghost use Rattle.clap.specs.Kinds.{FailsBy};
ghost use Rattle.clap.specs.Words.{app_of, first_of, found_of, rows_of, subcommand_of, subcommand_rows_of};
ghost use Rattle.jb_args.specs.App.{jb_app};
ghost use Rattle.jb_args.specs.Faults.{HasKind, fault_kinds};
ghost use Rattle.jb_args.specs.PlainCommand.{asked, asks, cat_in, check_in, dump_in};
ghost use Rattle.jb_args.specs.PlainCommand.{flag_in, format_in, number_in, options_in, options_said, recover_in};
ghost use Rattle.jb_args.specs.Command.{load_in, load_said, wanted_in, wanted_of, wants};

use crate::command::{CommandLine, LoadWords};
use crate::commands::jb_command;
use crate::plain::{CatOptions, DumpOptions, FormatOptions, Plain, RecoverOptions};
use clap::error::ErrorKind;
use clap::{ArgMatches, Command, Error};
use std::alloc::{AllocError, Global};
use std::convert::AsStr;
use std::io::Write;

/// The command that the words after the program's name ask for.
///
/// # Errors
/// What clap says of the words: help and the version too, and out of memory as `ErrorKind::OutOfMemory`.
pub fn parse<'a, S: AsStr>(alloc: Global, words: &'a [S]) -> Result<CommandLine<'a>, Error>
    /// With `taken`: The command is the one that clap finds in the words, and clap finds no fault in them.
    ensures asked { IfOk result (λ found. wanted_in (map S.text words.entry.now) ≡ Some (wants found)) }
    ensures taken { IfOk result (λ _. fault_kinds (map S.text words.entry.now) ≡ []) }
    ensures refused { IfErr result (λ error. HasKind (fault_kinds (map S.text words.entry.now)) error
        ⊎ ((fault_kinds (map S.text words.entry.now) ≡ []) × (wanted_in (map S.text words.entry.now) ≡ None))) }
{
    let matches = matches_of(jb_command(alloc)?, words)?;
    let found = words_of(&matches);
    // Dropped once, and not on both ways out.
    drop(matches);
    match found {
        Some(found) => Ok(found),
        None => Err(no_command(alloc)?),
    }
}

/// Writes the short help of `jb`, as clap does where words are missing; a fault of the writer is ignored.
///
/// # Errors
/// `AllocError` where memory ran out.
pub fn show_help<W: Write>(alloc: Global, writer: &mut W) -> Result<(), AllocError>
    ensures { IsErr result → W.contents writer.new ≡ W.contents writer.old }
{
    let words = ["-h"];
    let Err(error) = parse(alloc, &words) else {
        return Err(AllocError);
    };
    if error.kind() == ErrorKind::OutOfMemory {
        return Err(AllocError);
    }
    let _ignored = write!(writer, "{error}");
    Ok(())
}

/// What is said where clap found no command: it lets no such words through, but its contracts do not say so.
fn no_command(alloc: Global) -> Result<Error, AllocError> {
    let mut command = jb_command(alloc)?;
    let error = command.error(ErrorKind::MissingSubcommand, "no command was given");
    drop(command);
    error
}

/// What clap makes of the words.
fn matches_of<'a, S: AsStr>(command: Command<'a>, words: &'a [S]) -> Result<ArgMatches<'a>, Error>
    requires { app_of command ≡ jb_app }
    ensures found { IfOk result (λ m. subcommand_rows_of m ≡ subcommand_of jb_app (map S.text words.entry.now)) }
    ensures faults { FailsBy (fault_kinds (map S.text words.entry.now)) result }
{
    command.try_get_matches_from(words)
}

/// The command that clap found, with its words.
fn words_of<'a>(matches: &ArgMatches<'a>) -> Option<CommandLine<'a>>
    ensures { option_map wants result ≡ wanted_of (subcommand_rows_of matches.now) }
{
    let (name, found) = matches.subcommand()?;
    match name {
        "load" => Some(CommandLine::Load(load_of(found)?)),
        "completions" => Some(CommandLine::Completions {
            shell: word_of(found, "SHELL")?,
        }),
        _ => Some(CommandLine::Plain(plain_of(name, found)?)),
    }
}

/// The words of `jb load`.
fn load_of<'a>(found: &ArgMatches<'a>) -> Option<LoadWords<'a>>
    ensures { option_map load_said result ≡ load_in (rows_of (found_of found.now)) }
{
    Some(LoadWords {
        image: word_of(found, "IMAGE")?,
        file: word_of(found, "FILE")?,
        journal: word_of(found, "journal"),
        extents: word_of(found, "extents"),
        threads: number_of(found, "threads")?,
        hold: flag_of(found, "hold")?,
        stamp: number_of(found, "stamp")?,
        checkpoint: flag_of(found, "checkpoint")?,
    })
}

/// The command of this name that runs without threads, with its words.
fn plain_of<'a>(name: &str, found: &ArgMatches<'a>) -> Option<Plain<'a>>
    ensures { option_map asks result ≡ asked name.now (rows_of (found_of found.now)) }
{
    match name {
        "cost" => Some(Plain::Cost {
            file: word_of(found, "FILE")?,
        }),
        "plan" => Some(Plain::Plan {
            file: word_of(found, "FILE")?,
        }),
        "check" => check_of(found),
        "dump" => dump_of(found),
        "cat" => cat_of(found),
        "format" => format_of(found),
        "recover" => recover_of(found),
        "renumber" => Some(Plain::Renumber {
            image: word_of(found, "IMAGE")?,
            extents: word_of(found, "extents"),
        }),
        "widen" => Some(Plain::Widen {
            image: word_of(found, "IMAGE")?,
            extents: word_of(found, "extents"),
        }),
        _ => None,
    }
}

/// The words of `jb check`.
fn check_of<'a>(found: &ArgMatches<'a>) -> Option<Plain<'a>>
    ensures { option_map asks result ≡ check_in (rows_of (found_of found.now)) }
{
    Some(Plain::Check {
        file: word_of(found, "FILE")?,
        cert: word_of(found, "CERT")?,
    })
}

/// The words of `jb dump`.
fn dump_of<'a>(found: &ArgMatches<'a>) -> Option<Plain<'a>>
    ensures { option_map asks result ≡ dump_in (rows_of (found_of found.now)) }
{
    Some(Plain::Dump {
        file: word_of(found, "FILE")?,
        options: DumpOptions {
            home: number_of(found, "home"),
            last: number_of(found, "last"),
            superblock: flag_of(found, "super")?,
            summary: flag_of(found, "summary")?,
            drawn: flag_of(found, "draw")?,
            journal: word_of(found, "journal"),
            extents: word_of(found, "extents"),
            checksums: flag_of(found, "checksums")?,
            ring: flag_of(found, "ring")?,
        },
    })
}

/// The words of `jb cat`.
fn cat_of<'a>(found: &ArgMatches<'a>) -> Option<Plain<'a>>
    ensures { option_map asks result ≡ cat_in (rows_of (found_of found.now)) }
{
    Some(Plain::Cat {
        image: word_of(found, "IMAGE")?,
        options: CatOptions {
            home: number_of(found, "HOME")?,
            count: number_of(found, "n")?,
            hex: flag_of(found, "hex")?,
            journal: word_of(found, "journal"),
            extents: word_of(found, "extents"),
            checksums: flag_of(found, "checksums")?,
        },
    })
}

/// The words of `jb recover`.
fn recover_of<'a>(found: &ArgMatches<'a>) -> Option<Plain<'a>>
    ensures { option_map asks result ≡ recover_in (rows_of (found_of found.now)) }
{
    Some(Plain::Recover {
        image: word_of(found, "IMAGE")?,
        options: RecoverOptions {
            journal: word_of(found, "journal"),
            extents: word_of(found, "extents"),
            force: flag_of(found, "force")?,
            dry_run: flag_of(found, "dry-run")?,
            list: flag_of(found, "list")?,
            checksums: flag_of(found, "checksums")?,
        },
    })
}

/// The words of `jb format`.
fn format_of<'a>(found: &ArgMatches<'a>) -> Option<Plain<'a>>
    ensures { option_map asks result ≡ format_in (rows_of (found_of found.now)) }
{
    Some(Plain::Format {
        image: word_of(found, "IMAGE")?,
        options: options_of(found)?,
    })
}

/// The options of `jb format`.
fn options_of<'a>(found: &ArgMatches<'a>) -> Option<FormatOptions<'a>>
    ensures { option_map options_said result ≡ options_in (rows_of (found_of found.now)) }
{
    Some(FormatOptions {
        bs: number_of(found, "bs")?,
        journal: number_of(found, "journal")?,
        homes: number_of(found, "homes")?,
        max: number_of(found, "max")?,
        uuid: word_of(found, "uuid")?,
        wide: flag_of(found, "wide")?,
        sparse: flag_of(found, "sparse")?,
    })
}

/// The number that was given under this name.
fn number_of(found: &ArgMatches<'_>, name: &str) -> Option<u64>
    ensures { result ≡ number_in name.now (rows_of (found_of found.now)) }
{
    found.get_one(name)
}

/// Whether the flag of this name was given: clap enters each flag that a command has, as `true` or `false`.
fn flag_of(found: &ArgMatches<'_>, name: &str) -> Option<bool>
    ensures { result ≡ flag_in name.now (rows_of (found_of found.now)) }
{
    Some(word_of(found, name)? == "true")
}

/// The word that was given under this name.
fn word_of<'a>(found: &ArgMatches<'a>, name: &str) -> Option<&'a str>
    ensures { option_map (λ word. word.now) result ≡ first_of name.now (rows_of (found_of found.now)) }
{
    found.get_str(name)
}
