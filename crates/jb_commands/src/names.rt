ghost use Rattle.std.specs.Prelude.{◌≡◌, option_map};
ghost use Rattle.jb_args.specs.PlainCommand.{asks};
ghost use Rattle.jb_commands.specs.Lines.{image_named, journal_named, names_of, names_said, names_with};

use jb_args::Plain;

/// The names of the two files of a command whose journal is in a file of its own.
#[derive(Clone, Copy)]
pub struct TwoFiles<'a> {
    /// The file with the home blocks alone.
    pub image: &'a str,
    /// The file with the journal.
    pub journal: &'a str,
}

impl<'a> TwoFiles<'a> {
    ghost use Rattle.std.specs.Prelude.{◌≡◌, option_map};
    ghost use Rattle.jb_commands.specs.Lines.{names_said, names_with};

    /// The two names, where the journal is in a file of its own.
    pub fn of(image: &'a str, journal: Option<&'a str>) -> Option<TwoFiles<'a>>
        ensures { names_said result ≡ names_with image.entry.now (option_map (λ word. word.now) journal.entry) }
    {
        let journal = journal?;
        Some(TwoFiles { image, journal })
    }
}

/// The two files of a command, where its journal is in a file of its own.
pub(crate) fn files_of(plain: Plain<'_>) -> Option<TwoFiles<'_>>
    ensures { names_said result ≡ names_of (asks plain.entry) }
{
    match plain {
        Plain::Cat { image, options } => TwoFiles::of(image, options.journal),
        Plain::Recover { image, options } => TwoFiles::of(image, options.journal),
        Plain::Dump { file, options } => TwoFiles::of(file, options.journal),
        _ => None,
    }
}

/// The name of the image of two files.
pub(crate) fn image_of(files: Option<TwoFiles<'_>>) -> Option<&'_ str>
    ensures { option_map (λ name. name.now) result ≡ image_named (names_said files.entry) }
{
    Some(files?.image)
}

/// The name of the journal's file of two files.
pub(crate) fn journal_of(files: Option<TwoFiles<'_>>) -> Option<&'_ str>
    ensures { option_map (λ name. name.now) result ≡ journal_named (names_said files.entry) }
{
    Some(files?.journal)
}
