//! What is said at a terminal, and how places are written.

use crate::tcp::Place;
use std::io::IsTerminal;

/// The names of devices that `attach` takes.
const DEVICES: &str =
    "devices: IBM-3278-2, IBM-3278-3, IBM-3278-4, IBM-3278-5, each also with -E, and the same of IBM-3279";

/// A host without the brackets round an address, as `[::1]`.
pub(crate) fn bare_host(host: &str) -> &str {
    match host.strip_prefix('[') {
        Some(rest) => match rest.strip_suffix(']') {
            Some(address) => address,
            None => host,
        },
        None => host,
    }
}

/// Says at a terminal where is listened.
pub(crate) fn tell_listening(rt: &HostRuntime, place: Place<'_>) {
    if rt.stderr().is_terminal() {
        let Place { host, port } = place;
        let _ = eprintln!(rt; "listening on {host} port {port}");
    }
}

/// Says that a device isn't known, and which are.
pub(crate) fn tell_unknown_device(rt: &HostRuntime) {
    let _ = eprintln!(rt; "unknown device");
    let _ = eprintln!(rt; "{DEVICES}");
}

/// How many operands a command takes beside records on standard input, where it takes these.
fn operands_of(command: &str) -> Option<usize> {
    match command {
        "show" | "convert" | "draft" => Some(0),
        "check" | "bind" | "serve" | "press" => Some(1),
        _ => None,
    }
}

fn is_option(word: &str) -> bool {
    word.as_bytes().starts_with(b"-".as_slice())
}

/// How many words after the command are operands: no options, and not right after one, whose values they may be.
fn operand_count(words: &[String]) -> usize {
    let mut count: usize = 0;
    let mut is_value = false;
    for word in words {
        let is_dashed = is_option(word.as_str());
        if !is_dashed && !is_value {
            count = count.saturating_add(1);
        }
        is_value = is_dashed;
    }
    count
}

/// Says where records come from, if more operands stand on the command line than its command takes.
pub(crate) fn tell_records_place(rt: &HostRuntime, words: &[String]) {
    let [_program, command, others @ ..] = words else {
        return;
    };
    let Some(most) = operands_of(command.as_str()) else {
        return;
    };
    if operand_count(others) <= most {
        return;
    }
    let _ = match command.as_str() {
        "check" => {
            eprintln!(rt; "tip: records come on standard input, or from the file after '--records'")
        }
        _ => eprintln!(rt; "tip: records come on standard input"),
    };
}
