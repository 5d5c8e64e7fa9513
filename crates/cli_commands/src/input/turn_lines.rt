//! The lines of a dialogue's text, of which one stands between two turns.

ghost use Rattle.std.specs.Prelude.{◌≡◌, ◌++◌, codes, OnOk};
ghost use Rattle.cli_commands.specs.TurnLines.{is_turn, left_after};

use std::alloc::AllocError;

/// Whether a line stands between two turns.
pub fn is_turn(line: &[u8]) -> bool
    ensures { result ≡ is_turn line.now }
{
    line == b"turn".as_slice()
}

/// How many turns are left of a number after a line, none where none were.
pub fn left_after(left: usize, line: &[u8]) -> usize
    ensures { result ≡ left_after left line.now }
{
    if is_turn(line) {
        left.saturating_sub(1)
    } else {
        left
    }
}

/// Adds a line with its end.
///
/// # Errors
///
/// Where a request for memory was refused.
pub fn push_line(out: &mut Vec<u8>, line: &[u8]) -> Result<(), AllocError>
    ensures { OnOk result (out.new.items ≡ out.old.items ++ (line.now ++ codes "\n")) }
{
    out.extend_from_slice(line)?;
    out.push(b'\n')?;
    Ok(())
}
