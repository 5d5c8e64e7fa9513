//! The pairs of Start Field Extended.

ghost use Rattle.std.specs.Prelude.{◌≡◌, ◌++◌, ◌<◌, IfOk, OnOk};
ghost use Rattle.bms_map.specs.Entries.{pair_if, pairs_of};
ghost use Rattle.bms_map.specs.Laws.{PairsAreGood};

use crate::field::Looks;
use ds_codec::to_six_bit_code;
use std::alloc::{AllocError, Global};

/// Adds a pair, where it has an effect.
fn push_pair(pairs: &mut Vec<u8>, kind: u8, value: Option<u8>) -> Result<(), AllocError>
    ensures { OnOk result (pairs.new.items ≡ pairs.old.items ++ pair_if kind value) }
{
    match value {
        None => Ok(()),
        Some(value) => {
            if value == 0 {
                return Ok(());
            }
            pairs.extend_from_slice(&[kind, value])
        }
    }
}

/// The attribute and the pairs of a field; none where it has no pair but the attribute.
pub(crate) fn pairs_of(alloc: Global, attribute: u8, looks: Looks) -> Result<Vec<u8>, AllocError>
    requires { attribute < 64 }
    ensures { IfOk result (λ pairs. pairs.items ≡ pairs_of attribute looks) }
{
    let mut pairs = Vec::new(alloc);
    if looks.count() == 0 {
        return Ok(pairs);
    }
    pairs.extend_from_slice(&[0xC0, to_six_bit_code(attribute)])?;
    push_pair(&mut pairs, 0x41, looks.highlight)?;
    push_pair(&mut pairs, 0x42, looks.color)?;
    push_pair(&mut pairs, 0xC1, looks.validation)?;
    push_pair(&mut pairs, 0xC2, looks.outline)?;
    Ok(pairs)
}

/// Whatever pairs a field has, a record takes them.
pub fn pairs_are_good()
    ensures { PairsAreGood }
{}
