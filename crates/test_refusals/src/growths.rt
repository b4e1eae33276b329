//! Growths of memory before the calls.

use flow_core::{Source, StdSource};
use std::alloc::{AllocError, Global};
use std::io::Input;

/// How many growths are asked for: the number on standard input, or 0 where there is none. Nothing grows for it.
pub(crate) fn asked<R: Input>(rt: &R) -> u32 {
    let mut source = StdSource::new(rt.reader());
    let mut buffer = [0u8; 16];
    let Ok(count) = source.get(&mut buffer) else {
        return 0;
    };
    let Ok(text) = str::from_utf8(&buffer[..count]) else {
        return 0;
    };
    text.trim().parse::<u32>().unwrap_or(0)
}

/// Makes so many growths, and gives each back.
pub(crate) fn grow(alloc: Global, count: u32) -> Result<(), AllocError> {
    for _ in 0..count {
        let _room: Vec<u8> = Vec::with_capacity(alloc, 1)?;
    }
    Ok(())
}
