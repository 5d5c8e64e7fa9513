//! A terminal's responses to records (RFC 2355, section 10.4).

ghost use Rattle.std.specs.Prelude.{◌≡◌, ◌∷◌, [], ◌++◌, OnOk};
ghost use Rattle.tn_session.specs.TerminalLog.{response_bytes, positive, negative, refusal_code, read_code};

use crate::sent::push_headed;
use ds_codec::Why;
use ds_terminal::Refused;
use std::alloc::AllocError;
use tn_cores::Agreed;
use tn_wire::{DataType, Header};

/// COMMAND-REJECT where the command is refused, else OPERATION-CHECK.
fn read_code(why: Why) -> u8
    ensures { result ≡ read_code why }
{
    match why {
        Why::Empty | Why::UnknownCommand | Why::StructuredField => 0,
        _ => 2,
    }
}

/// The code that a negative response gives.
fn refusal_code(why: Refused) -> u8
    ensures { result ≡ refusal_code why }
{
    match why {
        Refused::Read(refused) => read_code(refused.why),
        Refused::Apply(_refused) => 2,
    }
}

/// Adds a response to the record of a header.
fn push_response(due: &mut Vec<u8>, header: Header, flag: u8, code: u8) -> Result<(), AllocError>
    ensures { OnOk result (due.new.items ≡ due.old.items ++ response_bytes header flag code) }
{
    let response = Header {
        data_type: DataType::Response,
        request: 0,
        response: flag,
        seq: header.seq,
    };
    push_headed(due, response, &[code])
}

/// Adds a positive response, where the record wants one always.
pub(crate) fn push_positive(
    due: &mut Vec<u8>,
    agreed: Agreed,
    header: Header,
) -> Result<(), AllocError>
    ensures { OnOk result (due.new.items ≡ due.old.items ++ positive agreed header) }
{
    if agreed.responses && header.response == 2 {
        return push_response(due, header, 0, 0);
    }
    Ok(())
}

/// Adds a negative response, where the record wants one to errors or always.
pub(crate) fn push_negative(
    due: &mut Vec<u8>,
    agreed: Agreed,
    header: Header,
    why: Refused,
) -> Result<(), AllocError>
    ensures { OnOk result (due.new.items ≡ due.old.items ++ negative agreed header why) }
{
    if agreed.responses && (header.response == 1 || header.response == 2) {
        return push_response(due, header, 1, refusal_code(why));
    }
    Ok(())
}
