//! The settings among the words of a command line, and the words that are left.
ghost use Rattle.std.specs.Prelude.{◌≡◌, ◌&&◌, ◌||◌, codes, not, is_none, IfOk, map};
ghost use Rattle.std.specs.Str.{bytes_eq};
ghost use Rattle.jb_args.specs.Settings.{setting_of as setting_in, settings_in as settings_said};
ghost use Rattle.jb_args.specs.Settings.{words_left as left_of};

use super::{Settings, setting_of};
use std::alloc::{AllocError, Global};
use std::convert::AsStr;

/// The word after which no word is a setting.
const END: &str = "--";

/// These settings, as the words change them: of two that set the same the last one counts.
pub fn settings_in<S: AsStr>(given: Settings, words: &[S]) -> Settings
    /// The settings: each word before a word `--` that is one changes those before it.
    ensures { result ≡ settings_said given (map S.text words.now) }
{
    let mut settings = given;
    for word in words {
        let text = word.as_str();
        if text == END {
            return settings;
        }
        settings = settings.with_word(text);
    }
    settings
}

/// The words without the settings, in their order.
///
/// # Errors
/// `AllocError` where memory ran out.
pub fn words_left<'a, S: AsStr>(alloc: Global, words: &'a [S]) -> Result<Vec<&'a str>, AllocError>
    /// The words that are no settings, and all from a word `--` on.
    ensures { IfOk result (λ left. map (λ word. word.now) left.items ≡ left_of (map S.text words.entry.now)) }
{
    let mut left = Vec::new(alloc);
    let mut may_set = true;
    for word in words {
        let text = word.as_str();
        may_set = sets_on(text, may_set);
        if stays(text, may_set) {
            left.push(text)?;
        }
    }
    Ok(left)
}

/// Whether a word, and those after it, may be settings, where those before it might.
fn sets_on(word: &str, may_set: bool) -> bool
    ensures { result ≡ (may_set && not (bytes_eq word.now (codes "--"))) }
{
    may_set && word != END
}

/// Whether a word is left for the command, where it may be a setting or not.
fn stays(word: &str, may_set: bool) -> bool
    ensures { result ≡ (not may_set || is_none (setting_in word.now)) }
{
    !may_set || setting_of(word).is_none()
}
