//! Where a text is no TOML.

ghost use Rattle.std.specs.Prelude.{◌≡◌};
ghost use Rattle.cli_reasons.specs.TomlPlace.{place_after};

use std::alloc::Global;

/// A line and a column, both counted from 1.
#[derive(Clone, Copy, Debug, PartialEq, Eq)]
pub(crate) struct LineColumn {
    pub line: u64,
    pub column: usize,
}

/// The place after some bytes of UTF-8. A column counts characters.
pub(crate) fn place_after(bytes: &[u8]) -> LineColumn
    ensures { result ≡ place_after 1 1 bytes.now }
{
    let mut line: u64 = 1;
    let mut column: usize = 1;
    let mut rest = bytes;
    while let [byte, others @ ..] = rest {
        if *byte == b'\n' {
            line = line.saturating_add(1);
            column = 1;
        } else if *byte / 64 != 2 {
            column = column.saturating_add(1);
        }
        rest = others;
    }
    LineColumn { line, column }
}
