//! Records written.

ghost use Rattle.std.specs.Prelude.{◌≡◌, ◌≤◌, [], ◌∷◌, ◌++◌, length, IfOk, OnOk};
ghost use Rattle.tn_wire.specs.Codes.{iac, end_of_record, record_most};
ghost use Rattle.tn_wire.specs.Telnet.{quoted};
ghost use Rattle.tn_wire.specs.Stream.{told_record, Tells};

use crate::codes::{EOR, IAC};
use crate::escape::push_quoted;
use std::alloc::{AllocError, Global};

/// The bytes of a record as they go over the line, each IAC twice (RFC 854), and then IAC EOR (RFC 885).
///
/// A record of more than 32,768 bytes is written too, and refused by a deframer.
pub fn frame(alloc: Global, bytes: &[u8]) -> Result<Vec<u8>, AllocError>
    ensures bytes { IfOk result (λ framed.
        framed.items ≡ quoted bytes.now ++ iac ∷ end_of_record ∷ []) }
    ensures one_record { IfOk result (λ framed. length bytes.now ≤ record_most
        → Tells framed.items (told_record bytes.now ∷ []) []) }
{
    let mut framed = Vec::with_capacity(alloc, bytes.len() + 2)?;
    push_frame(&mut framed, &[], bytes)?;
    Ok(framed)
}

/// Adds the bytes of a record in two parts, such as a header and what it heads, as they go over the line: each IAC
/// twice, and then IAC EOR.
pub fn push_frame(out: &mut Vec<u8>, header: &[u8], bytes: &[u8]) -> Result<(), AllocError>
    ensures { OnOk result (out.new.items
        ≡ out.old.items ++ (quoted (header.now ++ bytes.now) ++ iac ∷ end_of_record ∷ [])) }
{
    push_quoted(out, header)?;
    push_quoted(out, bytes)?;
    out.extend_from_slice(&[IAC, EOR])?;
    Ok(())
}
