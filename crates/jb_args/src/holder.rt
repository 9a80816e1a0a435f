/// How many bytes of it are kept.
pub const HOLDER_TEXT: usize = 255;

/// Who has a file that is in use, in words: where it is mounted, or which process has locked it.
#[derive(Clone, Copy)]
pub struct Holder {
    /// The words, and zeros after them.
    text: [u8; HOLDER_TEXT],
    /// How many bytes the words have.
    len: u8,
}

impl Holder {
    /// A holder of these words; `None` where they are more than [`HOLDER_TEXT`] bytes.
    pub fn new(words: &[u8]) -> Option<Holder> {
        let len = u8::try_from(words.len()).ok()?;
        let mut text = no_text();
        text.get_mut(..words.len())?.copy_from_slice(words);
        Some(Holder { text, len })
    }

    /// Its words.
    pub(crate) fn words(&self) -> &[u8] {
        match self.text.get(..usize::from(self.len)) {
            Some(words) => words,
            None => &[],
        }
    }
}

/// A text of zeros.
fn no_text() -> [u8; HOLDER_TEXT] {
    [0; HOLDER_TEXT]
}
