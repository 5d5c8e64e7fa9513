//! How many bytes of a stream an event took.

ghost use Rattle.std.specs.Prelude.{◌≡◌, ◌==◌, ◌+◌, ◌<◌, ◌≤◌, ◌^◌, length};
ghost use Rattle.std.specs.List.{filter};
ghost use Rattle.tn_wire.specs.Calls.{told_of};
ghost use Rattle.tn_wire.specs.Telnet.{quoted};
ghost use Rattle.cli_traces.specs.Open.{cost_of};

use tn_wire::{Event, IAC};

fn escapes_in(bytes: &[u8]) -> usize
    ensures { result ≡ length (filter (λ b. b == 255) bytes.now) }
{
    bytes.iter().filter(|byte| **byte == IAC).count()
}

/// The bytes of data as they came, each IAC twice.
#[tactic(auto, using(crate::proofs::Costs::quoted_length))]
fn quoted_len(bytes: &[u8]) -> usize
    requires { length (quoted bytes.now) < 2 ^ 64 }
    ensures { result ≡ length (quoted bytes.now) }
{
    bytes.len() + escapes_in(bytes)
}

/// The bytes that an event took.
#[tactic(auto, using(crate::proofs::Costs::quoted_length, crate::proofs::Costs::quoted_first_length))]
fn spelled_len(event: &Event<'_>) -> usize
    requires { cost_of (told_of event.now) < 2 ^ 64 }
    ensures { result ≡ cost_of (told_of event.now) }
{
    match event {
        Event::Record(bytes) => quoted_len(bytes) + 2,
        Event::Verb(_verb, _option) => 3,
        Event::Sub(option, parameters) => {
            let first = if *option == IAC { 2 } else { 1 };
            first + quoted_len(parameters) + 4
        }
        Event::Passed(_byte) => 2,
    }
}

/// The length of a slice, which is below 2^63.
pub(crate) fn len_of(bytes: &[u8]) -> usize
    ensures value { result ≡ length bytes.now }
    ensures small { result < 2 ^ 63 }
{
    bytes.len()
}

/// How much is open after an event, where so much was open and so much was taken.
pub(crate) fn open_after(old: usize, taken: usize, event: &Event<'_>) -> usize
    requires fits { old + taken < 2 ^ 64 }
    requires covers { cost_of (told_of event.now) ≤ old + taken }
    ensures { result + cost_of (told_of event.now) ≡ old + taken }
{
    old + taken - spelled_len(event)
}
