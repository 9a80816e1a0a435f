//! One stretch of a list of extents.
ghost use Rattle.std.specs.Prelude.{◌≡◌, ◌≤◌, IfSome};
ghost use Rattle.jb_image.specs.Words.{IsForward, counted_in, is_ended, is_name as is_named, named_in, place_in};
ghost use Rattle.jb_image.specs.Words.{range_in, stretch_in};

use jb_map::Extent;
use jb_text::{number, part};

/// What a word of a list says.
#[derive(Clone, Copy)]
pub(crate) enum ListWord {
    /// Nothing of the journal's blocks: it is empty, or about a block of the file system's own map.
    Nothing,
    /// These blocks hold blocks of the journal, from this one on where the word says so.
    Blocks(Option<u64>, Extent),
}

/// What a word says: `(A-B):C-D` or `(A):C`, as debugfs lists the extents of a file; `(NAME):C`, the blocks of the
/// map; or `C-D` or `C` alone, the next blocks.
pub(crate) fn read_word(word: &[u8]) -> Option<ListWord>
    ensures says { result ≡ named_in word.now }
    ensures forward { IfSome result IsForward }
{
    if word.is_empty() {
        return Some(ListWord::Nothing);
    }
    if word[0] != b'(' {
        return Some(ListWord::Blocks(None, range_of(word)?));
    }
    let (inner, rest) = part(&word[1..], b')');
    read_placed(inner, rest)
}

/// What `(INNER` and the rest of a word say, which begins with `):`.
fn read_placed(inner: &[u8], rest: &[u8]) -> Option<ListWord>
    ensures says { result ≡ place_in inner.now rest.now }
    ensures forward { IfSome result IsForward }
{
    if !ends_place(rest) {
        return None;
    }
    let blocks = range_of(&rest[2..])?;
    if is_name(inner) {
        return Some(ListWord::Nothing);
    }
    stretch(range_of(inner)?, blocks)
}

/// Blocks of the journal that are in as many of the image.
fn stretch(own: Extent, blocks: Extent) -> Option<ListWord>
    requires { blocks.first ≤ blocks.last }
    ensures says { result ≡ stretch_in own blocks }
    ensures forward { IfSome result IsForward }
{
    if own.blocks() != blocks.blocks() {
        return None;
    }
    Some(ListWord::Blocks(Some(own.first), blocks))
}

/// Whether a text begins with `):`.
fn ends_place(rest: &[u8]) -> bool
    ensures { result ≡ is_ended rest.now }
{
    rest.len() >= 2 && rest[0] == b')' && rest[1] == b':'
}

/// Whether the place of a stretch is a name, as `IND` or `ETB0`, and no number.
fn is_name(inner: &[u8]) -> bool
    ensures { result ≡ is_named inner.now }
{
    !inner.is_empty() && inner[0].is_ascii_uppercase()
}

/// The numbers that `C-D` or `C` says.
fn range_of(text: &[u8]) -> Option<Extent>
    ensures says { result ≡ range_in text.now }
    ensures forward { IfSome result (λ range. range.first ≤ range.last) }
{
    let (front, rest) = part(text, b'-');
    let first = number(front)?;
    if rest.is_empty() {
        return range(first, first);
    }
    range(first, number(&rest[1..])?)
}

/// The numbers from a first one to a last one, below 2^63.
fn range(first: u64, last: u64) -> Option<Extent>
    ensures says { result ≡ counted_in first last }
    ensures forward { IfSome result (λ range. range.first ≤ range.last) }
{
    if last < first || last >= 1 << 63 {
        return None;
    }
    Some(Extent { first, last })
}
