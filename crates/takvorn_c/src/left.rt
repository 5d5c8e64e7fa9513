//! What a call leaves to C: a buffer, a length and a status.

ghost use Rattle.std.specs.Prelude.{◌≡◌, ℕ, List, pos, Result, IfOk};
ghost use Rattle.cli_commands.specs.declared.fault.Fault.{Fault};
ghost use Rattle.cli_commands.specs.Fault.{Gives, GivesOrFails};
ghost use Rattle.cli_commands.specs.Held.{answer_seen};
ghost use Rattle.cli_commands.specs.Printed.{Printed, printed_or_fault};
ghost use Rattle.cli_traces.specs.declared.asked.Asked.{Asked};
ghost use Rattle.cli_traces.specs.Told.{TellsRecords};
ghost use Rattle.takvorn_c.specs.Left.{laid_over, IsTold, Leaves, LeavesRecords};

use cli_commands::{Answer, CommandError, Status, printed};
use cli_traces::Told;
use std::alloc::{AllocError, Global};

/// Lays a text over a buffer, as far as it fits.
fn lay(out: &mut [u8], text: &[u8])
    ensures { out.new ≡ laid_over out.old text.now }
{
    let fitting = if text.len() < out.len() {
        text.len()
    } else {
        out.len()
    };
    out[..fitting].copy_from_slice(&text[..fitting]);
}

/// Leaves the text of an answer and its length, and tells its status.
fn tell(out: &mut [u8], needed: &mut usize, answer: &Answer) -> u8
    ensures { IsTold (answer_seen answer.now) out.old out.new needed.new (pos result) }
{
    let text = answer.text.as_bytes();
    lay(out, text);
    *needed = text.len();
    answer.status.code()
}

/// Leaves what a command prints, its answer or the line of its fault; or nothing, where memory was refused.
pub fn leave(
    alloc: Global,
    answer: Result<Answer, CommandError>,
    out: &mut [u8],
    needed: &mut usize,
) -> u8
    ensures texts { (due : Result Printed Fault) → Gives answer_seen answer due
        → Leaves (printed_or_fault due) out.old out.new needed.new (pos result) }
    ensures readers { (due : Result Printed Fault) → GivesOrFails answer_seen answer due
        → Leaves (printed_or_fault due) out.old out.new needed.new (pos result) }
{
    match printed(alloc, answer) {
        Ok(told) => tell(out, needed, &told),
        Err(_) => {
            *needed = 0;
            Status::NoMemory.code()
        }
    }
}

/// Leaves what `records` tells of a text; or nothing, where memory was refused.
pub fn leave_records(told: Result<Told, AllocError>, out: &mut [u8], needed: &mut usize) -> u8
    ensures { (asked : Asked) (input : List ℕ)
        → IfOk told (λ told. TellsRecords asked input told.text.items told.status)
        → LeavesRecords asked input out.old out.new needed.new (pos result) }
{
    match told {
        Ok(told) => {
            lay(out, told.text.as_slice());
            *needed = told.text.len();
            told.status.code()
        }
        Err(_) => {
            *needed = 0;
            Status::NoMemory.code()
        }
    }
}
