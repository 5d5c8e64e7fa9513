//! Doubled IACs.

ghost use Rattle.std.specs.Prelude.{◌≡◌, ◌≢◌, ◌<◌, ◌≤◌, ℕ, ◌++◌, length, slice_index, OnOk};
ghost use Rattle.tn_wire.specs.Telnet.{quoted};

use crate::codes::IAC;
use memchr::memchr;
use std::alloc::AllocError;

/// How many bytes stand before the first IAC.
pub(crate) fn run_len(bytes: &[u8]) -> usize
    ensures bound { result ≤ length bytes.now }
    ensures plain { (k : ℕ) → k < result → slice_index bytes.now k ≢ IAC }
    ensures stops { result < length bytes.now → slice_index bytes.now result ≡ IAC }
{
    match memchr(IAC, bytes) {
        Some(place) => place,
        None => bytes.len(),
    }
}

/// Adds bytes with each IAC doubled, run by run.
pub(crate) fn push_quoted(out: &mut Vec<u8>, bytes: &[u8]) -> Result<(), AllocError>
    ensures { OnOk result (out.new.items ≡ out.old.items ++ quoted bytes.now) }
{
    let mut rest = bytes;
    'runs: loop {
        let (run, after) = rest.split_at(run_len(rest));
        out.extend_from_slice(run)?;
        let Some((_iac, after)) = after.split_first() else {
            return Ok(());
        };
        out.extend_from_slice(&[IAC, IAC])?;
        rest = after;
    }
}
