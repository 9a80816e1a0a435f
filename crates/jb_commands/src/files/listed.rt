//! The text of a list of extents: a word of the command line, standard input or a file.
ghost use Rattle.std.specs.Prelude.{◌≡◌, None, Some, ℕ, List, option_map};
ghost use Rattle.jb_commands.specs.ListText.{file_behind, list_file};

/// The file that has the list which a word says: `-` is standard input, and `@FILE` a file; any other word is the list.
pub(crate) fn file_of(word: &str) -> Option<&str>
    ensures { option_map (λ name. name.now) result ≡ list_file word.now }
{
    if word == "-" {
        return Some(word);
    }
    file_behind(word)
}

/// What follows a first `@`.
fn file_behind(word: &str) -> Option<&str>
    ensures { option_map (λ name. name.now) result ≡ file_behind word.now }
{
    word.strip_prefix('@')
}
