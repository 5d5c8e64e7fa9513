//! What a record holds.

ghost use Rattle.std.specs.Prelude.{◌≡◌, MatchResult, Ok, Err};
ghost use Rattle.tn_traces.specs.Held.{kept_seen};
ghost use Rattle.tn_traces.specs.Record.{kept_of};

use crate::negotiated::Negotiated;
use tn_wire::{Header, HeaderFault};

/// A record's header, in an enhanced session, and its data.
#[derive(Clone, Copy, Debug)]
pub struct Kept<'a> {
    /// The header of an enhanced session.
    pub header: Option<Header>,
    /// The data, without the header.
    pub body: &'a [u8],
}

/// What the bytes of a record hold, as far as TN3270E is agreed.
///
/// # Errors
///
/// In an enhanced session, those of [`Header::read`].
pub fn read_record(now: Negotiated, bytes: &[u8]) -> Result<Kept<'_>, HeaderFault>
    ensures { MatchResult result
        (λ kept. kept_of now bytes.now ≡ Ok (kept_seen kept))
        (λ fault. kept_of now bytes.now ≡ Err fault) }
{
    match now {
        Negotiated::Enhanced => {
            let (header, body) = Header::read(bytes)?;
            Ok(Kept {
                header: Some(header),
                body,
            })
        }
        Negotiated::Classic | Negotiated::Named => Ok(Kept {
            header: None,
            body: bytes,
        }),
    }
}
