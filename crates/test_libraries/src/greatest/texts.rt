//! Texts that are made of parts.

use std::alloc::{AllocError, Global};

/// These parts, one behind another.
pub(crate) fn joined(alloc: Global, parts: &[&[u8]]) -> Result<Vec<u8>, AllocError> {
    let mut text = Vec::new(alloc);
    for part in parts {
        text.extend_from_slice(part)?;
    }
    Ok(text)
}

/// The line of these jobs.
pub(crate) fn jobs_line(alloc: Global, jobs: &[u16]) -> Result<Vec<u8>, AllocError> {
    let mut line = Vec::new(alloc);
    for (place, job) in jobs.iter().enumerate() {
        let space = if place == 0 { "" } else { " " };
        line.extend_from_slice(format!(in alloc; "{space}{job}")?.as_bytes())?;
    }
    line.push(b'\n')?;
    Ok(line)
}
