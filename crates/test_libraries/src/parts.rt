//! Texts taken apart, for plain readings.

use std::alloc::{AllocError, Global};

/// What stands between the bytes of a text that are such marks.
pub fn parts<'a>(alloc: Global, text: &'a [u8], marks: &[u8]) -> Result<Vec<&'a [u8]>, AllocError> {
    let mut parts = Vec::new(alloc);
    let mut begin: usize = 0;
    for (place, byte) in text.iter().enumerate() {
        if marks.contains(byte) {
            parts.push(text.get(begin..place).unwrap_or(b""))?;
            begin = place.saturating_add(1);
        }
    }
    parts.push(text.get(begin..).unwrap_or(b""))?;
    Ok(parts)
}

/// Whether a word has digits alone.
pub fn are_digits(word: &[u8]) -> bool {
    for byte in word {
        if !byte.is_ascii_digit() {
            return false;
        }
    }
    true
}

/// The number that a word of digits is; none where it is another word, or has more than 64 bits.
pub fn number_of(word: &[u8]) -> Option<u64> {
    if !are_digits(word) {
        return None;
    }
    str::from_utf8(word).unwrap_or("").parse::<u64>().ok()
}
