//! One terminal's session, as a host holds it, and its lines.

ghost use Rattle.std.specs.Prelude.{◌≡◌, ◌++◌, map, IfOk, OnOk};
ghost use Rattle.std.specs.String.{string_bytes};
ghost use Rattle.std.specs.List.{flat_map};
ghost use Rattle.tn_session.specs.HostView.{field_view, outcome_view};
ghost use Rattle.cli_sessions.specs.Session.{CanRun, IsEnded, IsHosted, session_seen, field_line, answered_lines, fault_line, session_lines};

use crate::fault::fault_number;
use order_lines::{push_bytes, push_hex};
use scr_check::name_at;
use scr_layout::{Entry, Layout};
use std::alloc::{AllocError, Global};
use std::io::{Read, Write};
use tn_session::{HostOutcome, RunFault, SessionFault, Wire, host_run};

/// What a run gave, once the line has sent all that it took, unless it stopped. Where it can't, after a run without a fault, the
/// line's.
pub(crate) fn flushed<L: Read + Write, T: Drop>(
    wire: &mut Wire<L>,
    ran: Result<T, RunFault>,
) -> Result<T, RunFault>
    ensures ended { IsEnded ran wire.old result wire.new }
    ensures line { wire.new.line ≡ wire.old.line }
{
    if wire.stop().is_some() {
        return ran;
    }
    match wire.flush() {
        Some(()) => ran,
        None => match ran {
            Ok(_) => Err(RunFault::Session(SessionFault::LineFault)),
            Err(why) => Err(why),
        },
    }
}

/// A host's session over a wire: TN3270E with RESPONSES where the terminal takes it, else classic TN3270.
pub(crate) fn host_session<L: Read + Write>(
    alloc: Global,
    wire: &mut Wire<L>,
    layout: &Layout,
    records: &[&[u8]],
) -> Result<HostOutcome, RunFault>
    requires { CanRun wire.old }
    ensures { IsHosted layout.now (map (λ bytes. bytes.now) records.now) wire.old
        (session_seen result) wire.new }
{
    let ran = host_run(alloc, wire, records, layout, true, true);
    flushed(wire, ran)
}

fn push_field(
    out: &mut String,
    entries: &[Entry],
    field: &(usize, Vec<u8>),
) -> Result<(), AllocError>
    ensures { OnOk result (string_bytes out.new
        ≡ string_bytes out.old ++ field_line entries.now (field_view field.now)) }
{
    out.push_str(name_at(entries, field.0))?;
    out.push_str(" ")?;
    push_bytes(out, field.1.as_slice())?;
    out.push_str("\n")
}

fn push_fields(
    out: &mut String,
    entries: &[Entry],
    fields: &[(usize, Vec<u8>)],
) -> Result<(), AllocError>
    ensures { OnOk result (string_bytes out.new ≡ string_bytes out.old
        ++ flat_map (field_line entries.now) (map field_view fields.now)) }
{
    for field in fields {
        push_field(out, entries, field)?;
    }
    Ok(())
}

/// The key of the terminal of this number, and its fields.
///
/// # Errors
///
/// Where a request for memory was refused.
pub fn push_answered(
    out: &mut String,
    layout: &Layout,
    number: u64,
    outcome: &HostOutcome,
) -> Result<(), AllocError>
    ensures { OnOk result (string_bytes out.new ≡ string_bytes out.old
        ++ answered_lines layout.now.entries number (outcome_view outcome.now)) }
{
    write!(out, "terminal {number} aid ")?;
    push_hex(out, outcome.aid.byte())?;
    out.push_str("\n")?;
    push_fields(out, layout.entries(), outcome.fields.as_slice())
}

/// The fault of the session of the terminal of this number.
///
/// # Errors
///
/// Where a request for memory was refused.
pub fn push_fault(out: &mut String, number: u64, why: RunFault) -> Result<(), AllocError>
    ensures { OnOk result
        (string_bytes out.new ≡ string_bytes out.old ++ fault_line number why) }
{
    let fault = fault_number(why);
    write!(out, "terminal {number} fault {fault}\n")
}

/// The lines of the terminal of this number.
pub(crate) fn session_text(
    alloc: Global,
    layout: &Layout,
    number: u16,
    session: &Result<HostOutcome, RunFault>,
) -> Result<String, AllocError>
    ensures { IfOk result (λ text. string_bytes text
        ≡ session_lines layout.now.entries number (session_seen session.now)) }
{
    let mut out = String::new(alloc);
    let number = u64::from(number);
    match session {
        Ok(outcome) => push_answered(&mut out, layout, number, outcome)?,
        Err(why) => push_fault(&mut out, number, *why)?,
    }
    Ok(out)
}
