//! The records that lead to the turn at which a dialogue stops, and what is found of it, with the orders that it comes from.

ghost use Rattle.std.specs.Prelude.{◌≡◌, ◌+◌, ◌++◌, length, map, take, IfOk, OnOk};
ghost use Rattle.std.specs.List.{flat_map};
ghost use Rattle.scr_check.specs.Traced.{traced_of};
ghost use Rattle.cli_commands.specs.Held.{records_held};
ghost use Rattle.cli_commands.specs.TurnsHeld.{turns_held};
ghost use Rattle.cli_reports.specs.Stop.{all_records, span_of, traced_in};

use crate::talk_json::Span;
use cli_commands::lent;
use scr_check::{Finding, Traced, trace_findings};
use scr_layout::Layout;
use std::alloc::{AllocError, Global};

/// So many turns, or all where there are no more.
#[tactic(auto, using(crate::proofs::Turns::all_held, crate::proofs::Turns::some_held))]
fn first_turns(turns: &[Vec<Vec<u8>>], count: usize) -> &[Vec<Vec<u8>>]
    ensures { turns_held result.now ≡ take count (turns_held turns.now) }
{
    if count < turns.len() {
        &turns[..count]
    } else {
        turns
    }
}

/// The turns up to one and with it, or all where there are no more.
#[tactic(auto, using(crate::proofs::Turns::all_held, crate::proofs::Turns::some_held))]
fn turns_to(turns: &[Vec<Vec<u8>>], turn: usize) -> &[Vec<Vec<u8>>]
    ensures { turns_held result.now ≡ take (turn + 1) (turns_held turns.now) }
{
    if turn < turns.len() {
        &turns[..turn + 1]
    } else {
        turns
    }
}

/// The bytes of a record.
fn copied(alloc: Global, bytes: &[u8]) -> Result<Vec<u8>, AllocError>
    ensures { IfOk result (λ copy. copy.items ≡ bytes.now) }
{
    let mut copy = Vec::new(alloc);
    copy.extend_from_slice(bytes)?;
    Ok(copy)
}

/// Adds the records of a turn.
fn push_records(
    alloc: Global,
    all: &mut Vec<Vec<u8>>,
    records: &[Vec<u8>],
) -> Result<(), AllocError>
    ensures { OnOk result (records_held all.new.items
        ≡ records_held all.old.items ++ records_held records.now) }
{
    for bytes in records {
        all.push(copied(alloc, bytes.as_slice())?)?;
    }
    Ok(())
}

/// The records of turns, one turn after the other.
fn all_records(alloc: Global, turns: &[Vec<Vec<u8>>]) -> Result<Vec<Vec<u8>>, AllocError>
    ensures { IfOk result (λ all. records_held all.items ≡ all_records (turns_held turns.now)) }
{
    let mut all = Vec::new(alloc);
    for records in turns {
        push_records(alloc, &mut all, records.as_slice())?;
    }
    Ok(all)
}

/// Findings of the screen that records leave, each with the orders that it comes from.
fn traced(
    alloc: Global,
    layout: &Layout,
    records: &[Vec<u8>],
    findings: &[Finding],
) -> Result<Vec<Traced>, AllocError>
    ensures { IfOk result (λ traced. traced.items
        ≡ map (traced_of layout.now (records_held records.now)) findings.now) }
{
    let slices = lent(alloc, records)?;
    trace_findings(alloc, slices.as_slice(), layout, findings)
}

/// The records of the turns up to one and with it.
pub(crate) fn records_to(
    alloc: Global,
    turns: &[Vec<Vec<u8>>],
    turn: usize,
) -> Result<Vec<Vec<u8>>, AllocError>
    ensures { IfOk result (λ all. records_held all.items
        ≡ all_records (take (turn + 1) (turns_held turns.now))) }
{
    all_records(alloc, turns_to(turns, turn))
}

/// Findings of a turn, each with the order that it comes from among the records up to it.
pub(crate) fn traced_in(
    alloc: Global,
    layout: &Layout,
    turns: &[Vec<Vec<u8>>],
    turn: usize,
    findings: &[Finding],
) -> Result<Vec<Traced>, AllocError>
    ensures { IfOk result (λ traced. traced.items
        ≡ traced_in layout.now (turns_held turns.now) turn findings.now) }
{
    let records = records_to(alloc, turns, turn)?;
    traced(alloc, layout, records.as_slice(), findings)
}

/// How many records these turns have.
#[tactic(auto, using(crate::proofs::Turns::records_count))]
fn count_of(alloc: Global, turns: &[Vec<Vec<u8>>]) -> Result<usize, AllocError>
    ensures { IfOk result (λ count. count ≡ length (all_records (turns_held turns.now))) }
{
    let records = all_records(alloc, turns)?;
    Ok(records.len())
}

/// Where the records of a turn stand among those of all turns up to it.
pub(crate) fn span_of(
    alloc: Global,
    turns: &[Vec<Vec<u8>>],
    turn: usize,
) -> Result<Span, AllocError>
    ensures { IfOk result (λ span. span ≡ span_of (turns_held turns.now) turn) }
{
    let before = count_of(alloc, first_turns(turns, turn))?;
    let all = count_of(alloc, turns_to(turns, turn))?;
    Ok(Span { turn, before, all })
}
