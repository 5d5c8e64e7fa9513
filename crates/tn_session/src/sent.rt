//! Records as they go over a line.

ghost use Rattle.std.specs.Prelude.{◌≡◌, ◌++◌, OnOk};
ghost use Rattle.tn_wire.specs.Header.{header_bytes};
ghost use Rattle.tn_session.specs.Sent.{framed, next_sequence, sent_data};

use std::alloc::AllocError;
use tn_cores::Agreed;
use tn_wire::{DataType, Header, push_frame};

/// The sequence number after one: from 0 up to 32,767, and then on from 0.
pub fn next_sequence(sequence: u16) -> u16
    ensures { result ≡ next_sequence sequence }
{
    if sequence < 32_767 { sequence + 1 } else { 0 }
}

/// Adds a record with its header.
pub(crate) fn push_headed(due: &mut Vec<u8>, header: Header, bytes: &[u8]) -> Result<(), AllocError>
    ensures { OnOk result
        (due.new.items ≡ due.old.items ++ framed (header_bytes header ++ bytes.now)) }
{
    push_frame(due, &header.bytes(), bytes)
}

/// Adds a record of 3270 data, with a header where the session is enhanced.
///
/// # Errors
///
/// Where a request for memory was refused.
pub fn push_data(
    due: &mut Vec<u8>,
    agreed: Agreed,
    response: u8,
    sequence: u16,
    bytes: &[u8],
) -> Result<(), AllocError>
    ensures { OnOk result
        (due.new.items ≡ due.old.items ++ sent_data agreed response sequence bytes.now) }
{
    if !agreed.enhanced {
        return push_frame(due, &[], bytes);
    }
    let header = Header {
        data_type: DataType::Data3270,
        request: 0,
        response,
        seq: if agreed.responses { sequence } else { 0 },
    };
    push_headed(due, header, bytes)
}
