//! Records in turn, each read, looked at by the rule of its turn, and applied.

ghost use Rattle.std.specs.Prelude.{◌≡◌, map, OnErr};
ghost use Rattle.ds_codec.specs.Reading.{read_of};
ghost use Rattle.scr_check.specs.Taking.{TakesBy, TakesOn, TakesAllOn};

use crate::finding::Finding;
use ds_codec::Record;
use ds_screen::Outline;
use ds_terminal::{RecordTarget, apply_record, read_record};

/// What a turn of a dialogue asks of each record before it is applied.
pub trait TurnRule {
    ghost use Rattle.scr_check.specs.Taking.{Fault};

    /// What a record of these parts is at fault for.
    ghost fault_of: { Fault };

    /// What the record of this number is at fault for.
    fn fault(index: usize, outbound: &Record<'_>) -> Option<Finding>
        ensures { result ≡ fault_of index outbound.now.command outbound.now.orders };
}

/// Reads the record of this number, looks at it by the rule of its turn, and applies it to whatever takes records.
///
/// # Errors
///
/// What stands against the record: F1 where it can't be read, or else what the rule tells of it, or else F1 where it
/// can't be applied. Then the target is as before.
pub fn take_by<R: TurnRule, T: RecordTarget>(
    target: &mut T,
    index: usize,
    bytes: &[u8],
) -> Result<(), Finding>
    ensures { TakesBy R.fault_of T.leads T.refuses index
        (read_of (T.mode_of target.old) bytes.now) target.old result target.new }
{
    let record = match read_record(target, bytes) {
        Ok(record) => record,
        Err(refused) => return Err(Finding::RecordRefused(index, refused)),
    };
    if let Some(finding) = R::fault(index, &record) {
        return Err(finding);
    }
    match apply_record(target, &record) {
        Ok(_) => Ok(()),
        Err(refused) => Err(Finding::RecordRefused(index, refused)),
    }
}

/// The same on an outline, whatever picture it outlines.
pub(crate) fn take<R: TurnRule>(
    outline: &mut Outline,
    index: usize,
    bytes: &[u8],
) -> Result<(), Finding>
    ensures takes { TakesOn R.fault_of outline.old outline.new index bytes.now result }
    ensures unchanged { OnErr result (outline.new ≡ outline.old) }
{
    take_by::<R, Outline>(outline, index, bytes)
}

/// Takes the records in turn, up to the first against which something stands.
pub(crate) fn take_all<R: TurnRule>(outline: &mut Outline, records: &[&[u8]]) -> Result<(), Finding>
    ensures { TakesAllOn R.fault_of outline.old outline.new
        (map (λ bytes. bytes.now) records.now) result }
{
    for (index, bytes) in records.iter().enumerate() {
        if let Err(finding) = take::<R>(outline, index, bytes) {
            return Err(finding);
        }
    }
    Ok(())
}
