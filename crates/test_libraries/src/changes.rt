//! The texts that are close to a text.

use std::alloc::{AllocError, Global};

/// How a text is changed.
#[derive(Clone, Copy)]
pub enum Change {
    /// One byte is another.
    Other,
    /// One byte is lost.
    Lost,
    /// One byte stands twice.
    Doubled,
    /// Two neighbors are swapped.
    Swapped,
}

/// A text with some bytes in place of `count` of its own.
pub fn replaced(
    alloc: Global,
    text: &[u8],
    place: usize,
    count: usize,
    bytes: &[u8],
) -> Result<Vec<u8>, AllocError> {
    let mut close = Vec::from_slice(alloc, text.get(..place).unwrap_or(b""))?;
    close.extend_from_slice(bytes)?;
    let behind = place.saturating_add(count);
    close.extend_from_slice(text.get(behind..).unwrap_or(b""))?;
    Ok(close)
}

/// A text of lines, given without their ends, with other bytes as one of them, counted from 1.
pub fn with_line(
    alloc: Global,
    lines: &[&[u8]],
    changed: usize,
    bytes: &[u8],
) -> Result<Vec<u8>, AllocError> {
    let mut text = Vec::new(alloc);
    for (index, line) in lines.iter().enumerate() {
        text.extend_from_slice(if index + 1 == changed { bytes } else { line })?;
        text.push(b'\n')?;
    }
    Ok(text)
}

/// Puts the texts with another byte in a place behind others.
fn put_others(
    close: &mut Vec<Vec<u8>>,
    alloc: Global,
    text: &[u8],
    place: usize,
    byte: u8,
) -> Result<(), AllocError> {
    for other in 0..=255u8 {
        if other != byte {
            close.push(replaced(alloc, text, place, 1, &[other])?)?;
        }
    }
    Ok(())
}

/// The texts that are changed so in one place.
pub fn close_texts(alloc: Global, change: Change, text: &[u8]) -> Result<Vec<Vec<u8>>, AllocError> {
    let mut close = Vec::new(alloc);
    for (place, byte) in text.iter().enumerate() {
        match change {
            Change::Other => put_others(&mut close, alloc, text, place, *byte)?,
            Change::Lost => close.push(replaced(alloc, text, place, 1, b"")?)?,
            Change::Doubled => close.push(replaced(alloc, text, place, 0, &[*byte])?)?,
            Change::Swapped => {
                if let Some(next) = text.get(place.saturating_add(1)) {
                    close.push(replaced(alloc, text, place, 2, &[*next, *byte])?)?;
                }
            }
        }
    }
    Ok(close)
}
