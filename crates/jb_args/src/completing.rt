//! The scripts by which a shell completes the words of `jb`, made from the table of the commands.
ghost use Rattle.std.specs.Prelude.{◌≡◌, ◌++◌, codes, IfOk, OnOk, map, string_bytes};
ghost use Rattle.jb_args.specs.Completions.{ScriptForm, command_completed, commands_completed, completions_of};
ghost use Rattle.jb_args.specs.Completions.{form_said, names_completed, option_completed, options_completed};
ghost use Rattle.jb_args.specs.Completions.{shapes_of, shell_named};
ghost use Rattle.jb_args.specs.Rows.{app_of_row, rule_of_word};

use crate::commands::{COMMANDS, CommandName, CommandRow, CommandWord, WordKind, row_of};
use crate::setting_rows;
use std::alloc::{AllocError, Global};

/// A shell that `jb` has completions for.
#[derive(Clone, Copy)]
pub enum Shell {
    /// bash.
    Bash,
    /// zsh.
    Zsh,
    /// fish.
    Fish,
}

/// What a shell's script has around the words of the table: the names of the commands, and a line for each command with
/// its options.
#[derive(Clone, Copy)]
pub(crate) struct ShellForm {
    /// Before the names of the commands.
    head: &'static str,
    /// After them.
    middle: &'static str,
    /// Before the name of a command at its line.
    before: &'static str,
    /// Between the name and the options.
    between: &'static str,
    /// After the options.
    after: &'static str,
    /// After all commands.
    tail: &'static str,
}

/// Two texts with the words of the settings between them, each after a space.
macro_rules! words_between {
    (($before:literal, $after:literal) $($setting:ident, $($word:literal),+ => $help:literal;)*) => {
        concat!($before, $($(" ", $word),+),*, $after)
    };
}

/// The script of bash.
pub(crate) const BASH: ShellForm = ShellForm {
    head: setting_rows!(
        words_between,
        (
            "# Completions of jb for bash.
_jb() {
    local word=${COMP_WORDS[COMP_CWORD]} options=\"--help",
            "\"
    local commands=\"help"
        )
    ),
    middle: "\"
    if [ \"$COMP_CWORD\" -eq 1 ]; then
        mapfile -t COMPREPLY < <(compgen -W \"$commands $options\" -- \"$word\")
        return
    fi
    case ${COMP_WORDS[1]} in
        help) mapfile -t COMPREPLY < <(compgen -W \"$commands\" -- \"$word\"); return ;;
",
    before: "        ",
    between: ") options+=\"",
    after: "\" ;;\n",
    tail: "    esac
    case $word in
        -*) mapfile -t COMPREPLY < <(compgen -W \"$options\" -- \"$word\") ;;
        *) compopt -o filenames 2>/dev/null; mapfile -t COMPREPLY < <(compgen -f -- \"$word\") ;;
    esac
}
complete -F _jb jb
",
};

/// The script of zsh.
pub(crate) const ZSH: ShellForm = ShellForm {
    head: setting_rows!(
        words_between,
        (
            "#compdef jb
# Completions of jb for zsh.
_jb() {
    local -a commands options
    options=(--help",
            ")
    commands=(help"
        )
    ),
    middle: ")
    if (( CURRENT == 2 )); then
        compadd -a commands
        return
    fi
    case $words[2] in
        help) compadd -a commands; return ;;
",
    before: "        ",
    between: ") options+=(",
    after: ") ;;\n",
    tail: "    esac
    case $PREFIX in
        -*) compadd -a options ;;
        *) _files ;;
    esac
}
_jb \"$@\"
",
};

/// The script of fish.
pub(crate) const FISH: ShellForm = ShellForm {
    head: setting_rows!(
        words_between,
        (
            "# Completions of jb for fish.
complete -c jb -a '--help",
            "'
complete -c jb -n __fish_use_subcommand -f -a 'help"
        )
    ),
    middle: "'\n",
    before: "complete -c jb -n '__fish_seen_subcommand_from ",
    between: "' -a '",
    after: "'\n",
    tail: "",
};

impl Shell {
    /// The shell of this name.
    pub fn named(name: &str) -> Option<Shell>
        ensures { result ≡ shell_named name.now }
    {
        match name {
            "bash" => Some(Shell::Bash),
            "zsh" => Some(Shell::Zsh),
            "fish" => Some(Shell::Fish),
            _ => None,
        }
    }

    /// The form of its script.
    fn form(self) -> ShellForm {
        match self {
            Shell::Bash => BASH,
            Shell::Zsh => ZSH,
            Shell::Fish => FISH,
        }
    }
}

/// The script by which a shell completes the words of `jb`.
///
/// # Errors
/// `AllocError` where memory ran out.
pub fn completions(alloc: Global, shell: Shell) -> Result<String, AllocError>
    /// The script of a shell: it has each command by its name, and in its line each of its options. What it has around
    /// them, in the shell's own language, is only tested.
    ensures { IfOk result (λ text. (form : ScriptForm) × (string_bytes text ≡ completions_of form)) }
{
    let form = shell.form();
    let mut text = String::from_str(alloc, form.head)?;
    put_names(&mut text, &COMMANDS)?;
    put_text(&mut text, form.middle)?;
    put_commands(&mut text, &form, &COMMANDS)?;
    put_text(&mut text, form.tail)?;
    Ok(text)
}

/// Adds the names of the commands, each after a space.
fn put_names(text: &mut String, names: &[CommandName]) -> Result<(), AllocError>
    ensures { OnOk result (string_bytes text.new
        ≡ string_bytes text.old ++ names_completed (shapes_of names.now)) }
{
    for name in names {
        put_text(text, " ")?;
        put_text(text, row_of(*name).name)?;
    }
    Ok(())
}

/// Adds the lines of the commands.
fn put_commands(
    text: &mut String,
    form: &ShellForm,
    names: &[CommandName],
) -> Result<(), AllocError>
    ensures { OnOk result (string_bytes text.new
        ≡ string_bytes text.old ++ commands_completed (form_said form.now) (shapes_of names.now)) }
{
    for name in names {
        put_command(text, form, row_of(*name))?;
    }
    Ok(())
}

/// Adds the line of a command.
fn put_command(text: &mut String, form: &ShellForm, row: &CommandRow<'_>) -> Result<(), AllocError>
    ensures { OnOk result (string_bytes text.new
        ≡ string_bytes text.old ++ command_completed (form_said form.now) (app_of_row row.now).top) }
{
    put_text(text, form.before)?;
    put_text(text, row.name)?;
    put_text(text, form.between)?;
    put_options(text, row.words)?;
    put_text(text, form.after)
}

/// Adds the options of a command, each after a space.
fn put_options(text: &mut String, words: &[CommandWord<'_>]) -> Result<(), AllocError>
    ensures { OnOk result (string_bytes text.new
        ≡ string_bytes text.old ++ options_completed (map rule_of_word words.now)) }
{
    for word in words {
        put_option(text, word)?;
    }
    Ok(())
}

/// Adds a space and an option; of a word that is none nothing.
fn put_option(text: &mut String, word: &CommandWord<'_>) -> Result<(), AllocError>
    ensures { OnOk result (string_bytes text.new ≡ string_bytes text.old ++ option_completed (rule_of_word word.now)) }
{
    match word.kind {
        WordKind::Word => Ok(()),
        WordKind::NumberWord => Ok(()),
        WordKind::Count => put_text(text, " -n"),
        WordKind::Text(_) => put_long(text, word.name),
        WordKind::TextOr(_, _) => put_long(text, word.name),
        WordKind::Number => put_long(text, word.name),
        WordKind::RequiredNumber => put_long(text, word.name),
        WordKind::NumberOr(_, _) => put_long(text, word.name),
        WordKind::Flag => put_long(text, word.name),
    }
}

/// Adds a space and an option of this name.
fn put_long(text: &mut String, name: &str) -> Result<(), AllocError>
    ensures { OnOk result (string_bytes text.new ≡ string_bytes text.old ++ (codes " --" ++ name.now)) }
{
    put_text(text, " --")?;
    put_text(text, name)
}

/// Adds a part of the script.
fn put_text(text: &mut String, part: &str) -> Result<(), AllocError>
    ensures { OnOk result (string_bytes text.new ≡ string_bytes text.old ++ part.now) }
{
    text.push_str(part)?;
    Ok(())
}
