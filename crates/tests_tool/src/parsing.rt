//! Words that are a command, and what they ask for; and the help that is shown where there are none.

use crate::checks::{check_text, fail};
use crate::runs::{Host, words_of};
use jb_args::{
    CatOptions, CommandLine, DumpOptions, FormatOptions, LoadWords, Plain, RecoverOptions, parse,
    show_help,
};

/// Adds a word to a text.
fn put(rt: &impl Host, text: &mut String, word: &str) {
    if !text.is_empty() {
        text.push_str(" ").expect(rt, "memory")
    }
    text.push_str(word).expect(rt, "memory")
}

/// Adds these words.
pub fn put_words(rt: &impl Host, text: &mut String, words: &[&str]) {
    for word in words {
        put(rt, text, word)
    }
}

/// Adds these numbers.
fn put_numbers(rt: &impl Host, text: &mut String, numbers: &[u64]) {
    for number in numbers {
        let digits = format!(in rt.alloc(); "{number}").expect(rt, "memory");
        put(rt, text, &digits)
    }
}

/// Adds a number that may be missing.
fn put_some(rt: &impl Host, text: &mut String, number: Option<u64>) {
    match number {
        Some(number) => put_numbers(rt, text, &[number]),
        None => put(rt, text, "-"),
    }
}

/// Adds whether each of these is set.
fn put_flags(rt: &impl Host, text: &mut String, flags: &[bool]) {
    for flag in flags {
        put(rt, text, if *flag { "true" } else { "false" })
    }
}

/// Adds the words and options of `jb dump`, in the order of `DumpOptions`.
fn put_dump(rt: &impl Host, text: &mut String, file: &str, of: DumpOptions) {
    put_words(rt, text, &["dump", file]);
    put_some(rt, text, of.home);
    put_some(rt, text, of.last);
    put_flags(rt, text, &[of.superblock, of.summary, of.drawn]);
    put(rt, text, of.journal.unwrap_or("-"));
    put(rt, text, of.extents.unwrap_or("-"));
    put_flags(rt, text, &[of.checksums, of.ring])
}

/// Adds the words and options of `jb format`, in the order of `FormatOptions`.
fn put_format(rt: &impl Host, text: &mut String, image: &str, of: FormatOptions) {
    put_words(rt, text, &["format", image]);
    put_numbers(rt, text, &[of.bs, of.journal, of.homes, of.max]);
    put(rt, text, of.uuid);
    put_flags(rt, text, &[of.wide, of.sparse])
}

/// Adds the words and options of `jb cat`, in the order of `CatOptions`.
fn put_cat(rt: &impl Host, text: &mut String, image: &str, of: CatOptions) {
    put_words(rt, text, &["cat", image]);
    put_numbers(rt, text, &[of.home, of.count]);
    put_flags(rt, text, &[of.hex]);
    put(rt, text, of.journal.unwrap_or("-"));
    put(rt, text, of.extents.unwrap_or("-"));
    put_flags(rt, text, &[of.checksums])
}

/// Adds the words and options of `jb recover`, in the order of `RecoverOptions`.
fn put_recover(rt: &impl Host, text: &mut String, image: &str, of: RecoverOptions) {
    put_words(rt, text, &["recover", image]);
    put(rt, text, of.journal.unwrap_or("-"));
    put(rt, text, of.extents.unwrap_or("-"));
    put_flags(rt, text, &[of.force, of.dry_run, of.list, of.checksums])
}

/// Adds the words and options of `jb load`, in the order of `LoadWords`.
fn put_load(rt: &impl Host, text: &mut String, of: LoadWords) {
    put_words(rt, text, &["load", of.image, of.file]);
    put(rt, text, of.journal.unwrap_or("-"));
    put(rt, text, of.extents.unwrap_or("-"));
    put_numbers(rt, text, &[of.threads]);
    put_flags(rt, text, &[of.hold]);
    put_numbers(rt, text, &[of.stamp]);
    put_flags(rt, text, &[of.checkpoint])
}

/// Adds a command, its words and its options.
fn put_plain(rt: &impl Host, text: &mut String, plain: Plain) {
    match plain {
        Plain::Cost { file } => put_words(rt, text, &["cost", file]),
        Plain::Plan { file } => put_words(rt, text, &["plan", file]),
        Plain::Check { file, cert } => put_words(rt, text, &["check", file, cert]),
        Plain::Dump { file, options } => put_dump(rt, text, file, options),
        Plain::Format { image, options } => put_format(rt, text, image, options),
        Plain::Cat { image, options } => put_cat(rt, text, image, options),
        Plain::Recover { image, options } => put_recover(rt, text, image, options),
        Plain::Renumber { image, extents } => {
            put_words(rt, text, &["renumber", image, extents.unwrap_or("-")])
        }
        Plain::Widen { image, extents } => {
            put_words(rt, text, &["widen", image, extents.unwrap_or("-")])
        }
    }
}

/// What these words ask for: the command, its words and its options.
fn asked(rt: &impl Host, words: &[&str]) -> String {
    let mut text = String::new(rt.alloc());
    match parse(rt.alloc(), words) {
        Ok(CommandLine::Plain(plain)) => put_plain(rt, &mut text, plain),
        Ok(CommandLine::Load(of)) => put_load(rt, &mut text, of),
        Ok(CommandLine::Completions { shell }) => {
            put_words(rt, &mut text, &["completions", shell])
        }
        Err(_) => fail(rt, "words that are refused"),
    }
    text
}

/// Command lines, and what they ask for.
static ROWS: [(&str, &str); 38] = [
    ("cost queue.txt", "cost queue.txt"),
    ("cost -", "cost -"),
    ("cost -- -x", "cost -x"),
    ("plan -", "plan -"),
    ("completions zsh", "completions zsh"),
    ("check a b", "check a b"),
    ("renumber a.img", "renumber a.img -"),
    ("renumber --extents=1-33 a.img", "renumber a.img 1-33"),
    ("widen -- -", "widen - -"),
    ("widen a.img --extents @list", "widen a.img @list"),
    (
        "format --uuid 000102030405060708090A0b0c0d0e0f --max=6 --wide a.img --homes 16 --journal 33 --bs 1024",
        "format a.img 1024 33 16 6 000102030405060708090A0b0c0d0e0f true false",
    ),
    (
        "format --sparse a.img --bs +1024 --journal 033 --homes 16",
        "format a.img 1024 33 16 0 00000000000000000000000000000000 false true",
    ),
    ("dump a", "dump a - - false false false - - false false"),
    (
        "dump --home 5 a",
        "dump a 5 - false false false - - false false",
    ),
    (
        "dump --journal j a",
        "dump a - - false false false j - false false",
    ),
    (
        "dump a --extents=1-33",
        "dump a - - false false false - 1-33 false false",
    ),
    (
        "dump a --last=18446744073709551615",
        "dump a - 18446744073709551615 false false false - - false false",
    ),
    (
        "dump --super a",
        "dump a - - true false false - - false false",
    ),
    (
        "dump --summary a",
        "dump a - - false true false - - false false",
    ),
    (
        "dump --draw a --summary",
        "dump a - - false true true - - false false",
    ),
    (
        "dump a --summary --last 2",
        "dump a - 2 false true false - - false false",
    ),
    (
        "dump --last 0 --super a --home=+07",
        "dump a 7 0 true false false - - false false",
    ),
    (
        "dump a --checksums --super",
        "dump a - - true false false - - true false",
    ),
    (
        "dump --ring a --checksums",
        "dump a - - false false false - - true true",
    ),
    (
        "dump a --ring",
        "dump a - - false false false - - false true",
    ),
    ("cat a.img 5", "cat a.img 5 1 false - - false"),
    (
        "cat --hex a.img -n 3 18446744073709551615",
        "cat a.img 18446744073709551615 3 true - - false",
    ),
    (
        "cat a.img --journal j 0 -n0",
        "cat a.img 0 0 false j - false",
    ),
    ("cat --checksums a.img 0", "cat a.img 0 1 false - - true"),
    ("recover a.img", "recover a.img - - false false false false"),
    (
        "recover --journal=j a.img",
        "recover a.img j - false false false false",
    ),
    (
        "recover --force a.img --extents= --dry-run",
        "recover a.img -  true true false false",
    ),
    (
        "recover a.img --list --dry-run",
        "recover a.img - - false true true false",
    ),
    (
        "recover --checksums --force a.img",
        "recover a.img - - true false false true",
    ),
    (
        "load a.img queue.txt",
        "load a.img queue.txt - - 1 false 0 false",
    ),
    (
        "load --hold a.img --threads 64 queue.txt",
        "load a.img queue.txt - - 64 true 0 false",
    ),
    (
        "load --extents 1-33 a.img queue.txt --journal j",
        "load a.img queue.txt j 1-33 1 false 0 false",
    ),
    (
        "load --stamp=18446744073709551615 --checkpoint a.img queue.txt --threads=0",
        "load a.img queue.txt - - 0 false 18446744073709551615 true",
    ),
];

/// Checks what these words ask for.
fn check_asked(rt: &impl Host, words: &[&str], wanted: &str, row: usize) {
    let asked = asked(rt, words);
    check_text(rt, asked.as_bytes(), wanted, "the command of row", row)
}

/// Checks each row of the table, and a list with a space in it.
fn check_rows(rt: &impl Host) {
    for (row, (line, wanted)) in ROWS.iter().enumerate() {
        check_asked(rt, &words_of(rt, line), wanted, row);
    }
    let words = ["recover", "--extents", "(0-1):5-6, (2):9", "a.img"];
    let wanted = "recover a.img - (0-1):5-6, (2):9 false false false false";
    check_asked(rt, &words, wanted, ROWS.len())
}

#[test]
fn commands_with_their_words_are_taken(rt: HostRuntime) {
    check_rows(&rt)
}

/// The short help of `jb`.
const HELP: &str = "A block journal in jbd2's format\n\nUsage: jb <COMMAND>\n\nCommands:\
     \n  cost         Prints the log blocks that the queue takes as one group\
     \n  plan         Prints a least cut of the queue into groups, with its prices\
     \n  check        Checks a certificate of the queue, whoever made it\
     \n  dump         Prints the committed transactions of a journal, block by block\
     \n  cat          Writes home blocks of an image as recovery would leave them\
     \n  format       Makes an image: a new journal, and home blocks of zeros after it\
     \n  load         Commits the handles of a queue text to an image, run by threads\
     \n  recover      Writes home what a journal has committed, and empties its log\
     \n  renumber     Restarts the transaction numbers of a clean journal at 1\
     \n  widen        Gives a clean journal block numbers of 64 bits\
     \n  completions  Prints a script by which a shell completes the words of jb\
     \n  help         Print this message or the help of the given subcommand(s)\n\nOptions:\
     \n  -h, --help     Print help (see more with '--help')\n  -V, --version  Print version\
     \n\nSettings and topics: jb help settings, files, locks, statuses, diagnostics\n";

/// Checks the help that is shown where there are no words.
fn check_short_help(rt: &impl Host) {
    let mut help = Vec::new(rt.alloc());
    show_help(rt.alloc(), &mut help).expect(rt, "memory");
    check_text(rt, &help, HELP, "the help", 0)
}

#[test]
fn help_is_shown_by_clap(rt: HostRuntime) {
    check_short_help(&rt)
}
