//! The example of `ds_inbound`.

use ds_codec::Mode;
use ds_inbound::Inbound;

/// The attention identifier of an answer of a terminal of 24x80, if it is one.
fn aid_of(bytes: &[u8]) -> Option<u8> {
    let answer = Inbound::read(Mode::Bits14, 1920, bytes).ok()?;
    Some(answer.aid().byte())
}
