//! What a command reads besides its input.

use crate::commands::Command;
use crate::devices::{Slow, slow_reader};
use anyhow::Result;
use std::alloc::{AllocError, Global};
use std::io::ErrorKind;

/// The files of a text: of `talk` the layouts, between which `|` stands, else the whole.
pub(crate) fn texts_of(alloc: Global, command: Command, text: &[u8]) -> Result<Vec<&[u8]>> {
    let mut texts = Vec::new(alloc);
    match command {
        Command::Talk => push_layouts(&mut texts, str::from_utf8(text)?)?,
        _ => texts.push(text)?,
    }
    Ok(texts)
}

fn push_layouts<'a>(texts: &mut Vec<&'a [u8]>, text: &'a str) -> Result<(), AllocError> {
    for layout in text.split('|') {
        texts.push(layout.as_bytes())?;
    }
    Ok(())
}

/// Readers of one byte a read, of which the read of a number fails so, counted over all, with the read at each one's
/// end; never at 0.
pub(crate) fn slow_files<'a>(
    alloc: Global,
    texts: &[&'a [u8]],
    fails_at: usize,
    fails_so: ErrorKind,
) -> Result<Vec<Slow<'a>>, AllocError> {
    let mut files = Vec::new(alloc);
    let mut before = 0usize;
    for text in texts {
        files.push(slow_reader(text, fails_at.saturating_sub(before), fails_so))?;
        before = before.saturating_add(text.len()).saturating_add(1);
    }
    Ok(files)
}
