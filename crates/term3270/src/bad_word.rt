//! A word of the command line that isn't UTF-8.

use std::env::{Env, FillError};
use std::io;

/// The most bytes of a word that is looked at: as many as a path has on Linux.
const MOST_BYTES: usize = 4_096;

/// A byte as people read it: what ASCII prints as it is, and others as `\x` and two digits.
fn tell_byte(rt: &HostRuntime, byte: u8) -> io::Result<()> {
    if matches!(byte, b' '..=b'~') {
        eprint!(rt; "{}", char::from(byte))
    } else {
        eprint!(rt; "\\x{byte:02X}")
    }
}

fn tell_word(rt: &HostRuntime, word: &[u8]) -> io::Result<()> {
    eprint!(rt; "term3270: ")?;
    for byte in word {
        tell_byte(rt, *byte)?;
    }
    eprintln!(rt; ": not UTF-8")
}

/// Says which word of the command line isn't UTF-8, the first of them.
pub(crate) fn tell_bad_word(rt: &HostRuntime) -> io::Result<()> {
    let mut word = [0; MOST_BYTES];
    for index in 0..usize::MAX {
        match rt.arg(index, &mut word) {
            Ok(length) if str::from_utf8(&word[..length]).is_err() => {
                return tell_word(rt, &word[..length]);
            }
            Err(FillError::NotPresent) => break,
            _ => {}
        }
    }
    Ok(())
}
