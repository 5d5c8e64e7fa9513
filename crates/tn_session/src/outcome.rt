//! What comes of a host's session.

ghost use Rattle.std.specs.Prelude.{◌≡◌, map, IfOk};
ghost use Rattle.ds_inbound.specs.Answer.{written_characters};
ghost use Rattle.scr_check.specs.Bound.{bound_seen};
ghost use Rattle.tn_session.specs.HostView.{field_view};

use ds_codec::Aid;
use scr_check::Bound;
use std::alloc::{AllocError, Global};
use tn_cores::Agreed;

/// What comes of a host's session: the terminal's answer, field by field.
#[derive(Debug, Drop)]
pub struct HostOutcome {
    /// What both ends agreed on.
    pub agreed: Agreed,
    /// The key that the operator sent with.
    pub aid: Aid,
    /// In the answer's order the index of each field's entry in the layout, and the bytes of its characters: text bytes but
    /// 00, and pairs of 08 and a code.
    pub fields: Vec<(usize, Vec<u8>)>,
}

/// A copy of bytes.
pub(crate) fn owned(alloc: Global, bytes: &[u8]) -> Result<Vec<u8>, AllocError>
    ensures { IfOk result (λ copy. copy.items ≡ bytes.now) }
{
    let mut copy = Vec::with_capacity(alloc, bytes.len())?;
    copy.extend_from_slice(bytes)?;
    Ok(copy)
}

/// The fields of an answer, each with bytes of its own.
pub(crate) fn owned_fields(
    alloc: Global,
    bound: &[Bound<'_>],
) -> Result<Vec<(usize, Vec<u8>)>, AllocError>
    ensures { IfOk result (λ fields. map field_view fields.items
        ≡ map (λ pair. (pair.entry, written_characters pair.characters)) (map bound_seen bound.now)) }
{
    let mut fields = Vec::with_capacity(alloc, bound.len())?;
    for pair in bound {
        let bytes = owned(alloc, pair.raw)?;
        fields.push((pair.entry, bytes))?;
    }
    Ok(fields)
}
