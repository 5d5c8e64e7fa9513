//! Records as they go out.

ghost use Rattle.std.specs.Prelude.{◌≡◌, ◌++◌, map, IfOk, OnOk};
ghost use Rattle.tn_session.specs.HostLog.{records_due, wanted};
ghost use Rattle.tn_dialogue.specs.Screens.{sequence_after};

use std::alloc::AllocError;
use tn_cores::Agreed;
use tn_session::{next_sequence, push_data};

/// Adds records in turn, numbered from this number on: the number after them.
pub(crate) fn push_records(
    due: &mut Vec<u8>,
    agreed: Agreed,
    first: u16,
    records: &[Vec<u8>],
) -> Result<u16, AllocError>
    ensures added { OnOk result (due.new.items
        ≡ due.old.items ++ records_due agreed first (map (λ bytes. bytes.items) records.now)) }
    ensures next { IfOk result (λ next.
        next ≡ sequence_after first (map (λ bytes. bytes.items) records.now)) }
{
    let response = if agreed.responses { 2 } else { 0 };
    let mut sequence = first;
    for bytes in records {
        push_data(due, agreed, response, sequence, bytes.as_slice())?;
        sequence = next_sequence(sequence);
    }
    Ok(sequence)
}
