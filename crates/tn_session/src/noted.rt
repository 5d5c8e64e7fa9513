//! The text that a host sends in records of NVT-DATA (RFC 2355, section 8.1.1; RFC 854, "The NVT printer").

ghost use Rattle.std.specs.Prelude.{◌≡◌, OnOk};
ghost use Rattle.tn_session.specs.Noted.{nothing_noted, is_printable, has_space, kept_byte, note_byte, note_bytes};

use std::alloc::{AllocError, Global};
use std::marker::Model;

/// The most lines that are kept.
const MOST_LINES: u32 = 1_000;

/// The most bytes that are kept.
const MOST_TEXT: usize = 65_536;

/// Lines of printable ASCII, each with its end, 0A.
#[derive(Drop)]
pub(crate) struct NotedText {
    text: Vec<u8>,
    lines: u32,
}

impl Model for NotedText {
    ghost use Rattle.std.specs.Prelude.{◌≤◌};
    ghost use Rattle.tn_session.specs.Noted.{Noted};

    ghost Value = { Noted };

    ghost view = { λ n. record { text = n.text.items; lines = n.lines } };

    ghost invariant = { λ n. n.lines ≤ 1000 };
}

fn is_printable(byte: u8) -> bool
    ensures { result ≡ is_printable byte }
{
    32 <= byte && byte < 127
}

impl NotedText {
    /// No text yet.
    pub(crate) fn new(alloc: Global) -> NotedText
        ensures { result ≡ nothing_noted }
    {
        NotedText {
            text: Vec::new(alloc),
            lines: 0,
        }
    }

    /// The lines.
    pub(crate) fn text(&self) -> &[u8]
        ensures { result.now ≡ self.now.text }
    {
        &self.text
    }

    fn has_space(&self) -> bool
        ensures { result ≡ has_space self.now }
    {
        self.lines < MOST_LINES && self.text.len() < MOST_TEXT
    }

    /// Keeps a byte.
    fn note_byte(&mut self, byte: u8) -> Result<(), AllocError>
        ensures { OnOk result (self.new ≡ note_byte self.old byte) }
    {
        if !self.has_space() {
            return Ok(());
        }
        if byte == 10 {
            self.text.push(10)?;
            self.lines += 1;
        } else if is_printable(byte) {
            self.text.push(byte)?;
        }
        Ok(())
    }

    /// Keeps a record's text.
    pub(crate) fn note(&mut self, bytes: &[u8]) -> Result<(), AllocError>
        ensures { OnOk result (self.new ≡ note_bytes self.old bytes.now) }
    {
        let mut rest = bytes;
        'bytes: while let Some((byte, others)) = rest.split_first() {
            self.note_byte(*byte)?;
            rest = others;
        }
        Ok(())
    }
}
