//! The lines of a dialogue on which its records stand.

ghost use Rattle.std.specs.Prelude.{◌≡◌, IfOk};
ghost use Rattle.cli_reports.specs.Numbers.{tells_record, turn_numbers};

use bstr::ByteSlice;
use cli_commands::is_turn;
use cli_findings::is_silent;
use std::alloc::{AllocError, Global};

/// Whether a line tells a record: it isn't ignored, and stands between no two turns.
fn tells_record(line: &[u8]) -> bool
    ensures { result ≡ tells_record line.now }
{
    !is_silent(line) && !is_turn(line)
}

/// The lines on which the records of all turns stand, in turn, counted from 1.
#[tactic(auto, using(crate::proofs::Numbered::none_of, crate::proofs::Numbered::one_of))]
pub(crate) fn turn_numbers(alloc: Global, text: &[u8]) -> Result<Vec<usize>, AllocError>
    ensures { IfOk result (λ numbers. numbers.items ≡ turn_numbers text.now) }
{
    let mut numbers = Vec::new(alloc);
    let mut line_number = 1;
    for line in text.lines() {
        if tells_record(line) {
            numbers.push(line_number)?;
        }
        line_number += 1;
    }
    Ok(numbers)
}
