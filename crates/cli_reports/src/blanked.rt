//! The text of a dialogue as one of records: what is no record of it is a comment.

ghost use Rattle.std.specs.Prelude.{◌≡◌, IfOk};
ghost use Rattle.cli_reports.specs.Blanked.{line_shown, turn_text};

use bstr::ByteSlice;
use cli_commands::{is_turn, left_after, push_line};
use std::alloc::{AllocError, Global};

/// Which records stay in the text.
#[derive(Clone, Copy)]
pub(crate) enum Kept {
    /// Those of all turns.
    All,
    /// Those of a turn, and of the turns after it.
    Own,
}

/// A line, or the comment in its place, before which so many turns are left that aren't kept.
fn line_shown<'a>(kept: Kept, left: usize, line: &'a [u8]) -> &'a [u8]
    ensures { result.now ≡ line_shown kept left line.now }
{
    if is_turn(line) {
        return b"#".as_slice();
    }
    match kept {
        Kept::All => line,
        Kept::Own => { if left == 0 { line } else { b"#".as_slice() } }
    }
}

/// The text of a dialogue of which a turn is told, with a comment in place of each line `turn`, and of each line of the turns before
/// where these aren't kept.
pub(crate) fn turn_text(
    alloc: Global,
    kept: Kept,
    turn: usize,
    text: &[u8],
) -> Result<Vec<u8>, AllocError>
    ensures { IfOk result (λ bytes. bytes.items ≡ turn_text kept turn text.now) }
{
    let mut out = Vec::new(alloc);
    let mut left = turn;
    for line in text.lines() {
        push_line(&mut out, line_shown(kept, left, line))?;
        left = left_after(left, line);
    }
    Ok(out)
}
