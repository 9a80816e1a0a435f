//! Blocks made of bytes, and of rows of words.

use jb_block::put32;

/// Four big-endian words, and their offset in bytes.
pub type Row = (usize, [u32; 4]);

/// Puts four big-endian words at an offset; those that do not fit are left out, and all where the offset is not below
/// 4 MiB.
pub fn put_words(bytes: &mut [u8], offset: usize, words: &[u32; 4]) {
    for (i, word) in words.iter().enumerate() {
        if offset < 0x40_0000 && offset + 4 * i + 4 <= bytes.len() {
            put32(bytes, offset + 4 * i, *word);
        }
    }
}

/// Puts rows of words, the later ones over those before them.
pub fn put_rows(bytes: &mut [u8], rows: &[Row]) {
    for (offset, words) in rows {
        put_words(bytes, *offset, words);
    }
}

/// The value of a hexadecimal digit, and 0 of any other byte.
fn digit_of(byte: u8) -> u32 {
    match byte {
        b'0'..=b'9' => u32::from(byte - b'0'),
        b'a'..=b'f' => u32::from(byte - b'a') + 10,
        _ => 0,
    }
}

/// Puts a big-endian word at an offset that is counted from a base; one that does not fit is left out.
fn put_word(bytes: &mut [u8], from: usize, at: usize, word: u32) {
    if from <= at && at - from < 0x40_0000 && at - from + 4 <= bytes.len() {
        put32(bytes, at - from, word);
    }
}

/// Puts the words of a text, which has offsets, counted from a base, each with `:` and the words from there on, all of
/// it in hexadecimal digits; words that do not fit are left out.
pub fn put_text(bytes: &mut [u8], from: usize, text: &str) {
    let mut at: usize = 0;
    let mut word: u32 = 0;
    for byte in text.as_bytes() {
        match *byte {
            b':' => {
                at = word as usize;
                word = 0;
            }
            b' ' | b'\n' => {
                put_word(bytes, from, at, word);
                at = at.saturating_add(4);
                word = 0;
            }
            digit => word = word << 4 | digit_of(digit),
        }
    }
    if !text.is_empty() {
        put_word(bytes, from, at, word);
    }
}

/// A block of zeros with these rows.
pub fn block_with(rows: &[Row]) -> [u8; 1024] {
    let mut block = [0; 1024];
    put_rows(&mut block, rows);
    block
}

/// A block that begins with these bytes, and zeros after them; bytes after the first 1,024 are left out.
pub fn block_of(bytes: &[u8]) -> [u8; 1024] {
    let mut block = [0; 1024];
    for (i, byte) in bytes.iter().enumerate() {
        if i < 1024 {
            block[i] = *byte;
        }
    }
    block
}
