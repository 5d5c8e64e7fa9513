//! The lines of a terminal.

ghost use Rattle.std.specs.Prelude.{◌≡◌, IfOk};
ghost use Rattle.std.specs.String.{string_bytes};
ghost use Rattle.tn_session.specs.HostView.{outcome_view};
ghost use Rattle.cli_sessions.specs.Session.{answered_lines, fault_line};
ghost use Rattle.cli_hosts.specs.Words.{limit_number, limit_line, starved_line};
ghost use Rattle.cli_hosts.specs.Writing.{Writes};

use cli_commands::{Answer, Status, TakesBytes, finish};
use cli_sessions::{Output, push_answered, push_fault};
use scr_layout::Layout;
use session_hub::End;
use std::alloc::{AllocError, Global};
use tn_session::{HostOutcome, RunFault};

/// The key of the terminal of this number, and its fields.
pub(crate) fn answered_text(
    alloc: Global,
    layout: &Layout,
    number: u64,
    outcome: &HostOutcome,
) -> Result<String, AllocError>
    ensures { IfOk result (λ text. string_bytes text
        ≡ answered_lines layout.now.entries number (outcome_view outcome.now)) }
{
    let mut out = String::new(alloc);
    push_answered(&mut out, layout, number, outcome)?;
    Ok(out)
}

/// The fault of the session of the terminal of this number.
pub fn fault_text(alloc: Global, number: u64, why: RunFault) -> Result<String, AllocError>
    ensures { IfOk result (λ text. string_bytes text ≡ fault_line number why) }
{
    let mut out = String::new(alloc);
    push_fault(&mut out, number, why)?;
    Ok(out)
}

/// The number of a limit; that of the others is a session's.
fn limit_number(end: End) -> &'static str
    ensures { result.now ≡ limit_number end }
{
    match end {
        End::Idle => "N12",
        End::Slow => "N13",
        End::Flooded => "N14",
        _ => "",
    }
}

/// The limit that ended the terminal of this number.
pub fn limit_text(alloc: Global, number: u64, end: End) -> Result<String, AllocError>
    ensures { IfOk result (λ text. string_bytes text ≡ limit_line number end) }
{
    let fault = limit_number(end);
    format!(in alloc; "terminal {number} fault {fault}\n")
}

/// That memory was refused to the terminal of this number.
pub fn starved_text(alloc: Global, number: u64) -> Result<String, AllocError>
    ensures { IfOk result (λ text. string_bytes text ≡ starved_line number) }
{
    format!(in alloc; "terminal {number} out of memory\n")
}

/// Writes a text and flushes: whether every byte was taken.
pub fn print<W: TakesBytes>(alloc: Global, output: &mut Output<W>, text: String) -> bool
    ensures { Writes output.old output.new (string_bytes text) result }
{
    let status = Status::Done;
    matches!(
        finish(alloc, output, Ok(Answer { text, status })),
        Status::Done
    )
}
