//! The address of a host, as `Connect` takes it.

ghost use Rattle.std.specs.Prelude.{◌≡◌, ◌≤◌, ◌++◌, ◌==◌, length, option_map, Option, IfOk};
ghost use Rattle.std.specs.List.{list_all, list_any, prefix_len};
ghost use Rattle.script_requests.specs.Addresses.{is_blank, is_other, without_end, trimmed, split_by, is_digit, port_value, port_of, with_port, split_port, after_bracket, split_brackets, split_host, after_prefix, split_name, read_trimmed, read_address, fault_words, syntax_text, address_fault_text};
ghost use Rattle.script_requests.specs.AddressSeen.{address_seen};

use script_keys::{Number, number_of};
use std::alloc::AllocError;

/// The address of a host.
#[derive(Clone, Copy, Debug)]
pub struct Address<'a> {
    /// The name of the device that is asked for; none where it is empty.
    pub lu_name: &'a [u8],
    /// Its name or number.
    pub host: &'a [u8],
    /// Its port, where one is given.
    pub port: Option<u16>,
}

/// Why a text is no address.
#[derive(Clone, Copy, Debug, PartialEq, Eq)]
pub enum AddressFault {
    /// Nothing, or blanks alone.
    Empty,
    /// A blank within it.
    Blank,
    NoHost,
    /// Nothing after `:`.
    NoPort,
    /// Nothing before `@`.
    NoLuName,
    TwoColons,
    TwoAts,
    /// `[` without `]`.
    NoBracket,
    /// Something else than a port after `]`.
    AfterBracket,
    /// A port that is no number from 1 to 65,535.
    BadPort,
}

fn fault_words(fault: AddressFault) -> &'static str
    ensures { result.now ≡ fault_words fault }
{
    match fault {
        AddressFault::Empty => "empty",
        AddressFault::Blank => "contains whitespace",
        AddressFault::NoHost => "empty hostname",
        AddressFault::NoPort => "empty port",
        AddressFault::NoLuName => "empty LU name",
        AddressFault::TwoColons => "double ':'",
        AddressFault::TwoAts => "double '@'",
        AddressFault::NoBracket => "missing ']'",
        AddressFault::AfterBracket => "text following ']'",
        AddressFault::BadPort => "invalid port",
    }
}

fn is_blank(byte: u8) -> bool
    ensures { result ≡ is_blank byte }
{
    byte == 0x20 || (0x09 <= byte && byte <= 0x0D)
}

/// How many blanks stand at the front.
fn blank_count(text: &[u8]) -> usize
    ensures count { result ≡ prefix_len is_blank text.now }
    ensures inside { result ≤ length text.now }
{
    for (i, byte) in text.iter().enumerate() {
        if !is_blank(*byte) {
            return i;
        }
    }
    text.len()
}

/// A text without the blanks at its end.
fn without_end(text: &[u8]) -> &[u8]
    ensures { result.now ≡ without_end text.now }
{
    let mut left = text.len();
    'places: while 0 < left {
        if !is_blank(text[left - 1]) {
            return &text[..left];
        }
        left -= 1;
    }
    &[]
}

/// A text without the blanks around it.
fn trimmed(text: &[u8]) -> &[u8]
    ensures { result.now ≡ trimmed text.now }
{
    without_end(&text[blank_count(text)..])
}

fn is_other(byte: u8, other: u8) -> bool
    ensures { result ≡ is_other byte other }
{
    other != byte
}

/// How many bytes stand before the first that is this one.
fn count_before(text: &[u8], byte: u8) -> usize
    ensures count { result ≡ prefix_len (is_other byte) text.now }
    ensures inside { result ≤ length text.now }
{
    for (i, other) in text.iter().enumerate() {
        if !is_other(byte, *other) {
            return i;
        }
    }
    text.len()
}

/// What stands before a byte and after it, where it is there.
fn split_by(text: &[u8], byte: u8) -> Option<(&[u8], &[u8])>
    ensures { option_map (λ parts. (parts.0.now, parts.1.now)) result ≡ split_by byte text.now }
{
    let at = count_before(text, byte);
    if at < text.len() {
        Some((&text[..at], &text[at + 1..]))
    } else {
        None
    }
}

fn has(text: &[u8], byte: u8) -> bool
    ensures { result ≡ list_any (λ other. other == byte) text.now }
{
    text.iter().any(|other| *other == byte)
}

fn are_digits(text: &[u8]) -> bool
    ensures { result ≡ list_all is_digit text.now }
{
    text.iter().all(|byte| is_digit(*byte))
}

fn is_digit(byte: u8) -> bool
    ensures { result ≡ is_digit byte }
{
    0x30 <= byte && byte <= 0x39
}

/// The port of a number: 1 to 65,535.
fn port_value(number: Number) -> Result<u16, AddressFault>
    ensures { result ≡ port_value number }
{
    match number {
        Number::Negative => Err(AddressFault::BadPort),
        Number::Natural(port) => {
            if 1 <= port && port <= 65_535 {
                Ok(port as u16)
            } else {
                Err(AddressFault::BadPort)
            }
        }
    }
}

/// The port of a text.
fn port_of(text: &[u8]) -> Result<u16, AddressFault>
    ensures { result ≡ port_of text.now }
{
    if text.is_empty() {
        return Err(AddressFault::NoPort);
    }
    if has(text, 0x3A) {
        return Err(AddressFault::TwoColons);
    }
    if !are_digits(text) {
        return Err(AddressFault::BadPort);
    }
    port_value(number_of(text))
}

/// An address with the port of a text.
fn with_port<'a>(
    lu_name: &'a [u8],
    host: &'a [u8],
    port: &[u8],
) -> Result<Address<'a>, AddressFault>
    ensures { address_seen result ≡ with_port lu_name.now host.now port.now }
{
    match port_of(port) {
        Ok(port) => Ok(Address {
            lu_name,
            host,
            port: Some(port),
        }),
        Err(why) => Err(why),
    }
}

/// The host and the port of a text.
fn split_port<'a>(lu_name: &'a [u8], text: &'a [u8]) -> Result<Address<'a>, AddressFault>
    ensures { address_seen result ≡ split_port lu_name.now text.now }
{
    match split_by(text, 0x3A) {
        None => Ok(Address {
            lu_name,
            host: text,
            port: None,
        }),
        Some((host, port)) => {
            if host.is_empty() {
                Err(AddressFault::NoHost)
            } else {
                with_port(lu_name, host, port)
            }
        }
    }
}

/// The address with what comes after a host's `]`.
fn after_bracket<'a>(
    lu_name: &'a [u8],
    host: &'a [u8],
    rest: &[u8],
) -> Result<Address<'a>, AddressFault>
    ensures { address_seen result ≡ after_bracket lu_name.now host.now rest.now }
{
    match rest {
        [] => Ok(Address {
            lu_name,
            host,
            port: None,
        }),
        [byte, port @ ..] => {
            if *byte == 0x3A {
                with_port(lu_name, host, port)
            } else {
                Err(AddressFault::AfterBracket)
            }
        }
    }
}

/// The host between brackets, and the port, of a text after its `[`.
fn split_brackets<'a>(lu_name: &'a [u8], text: &'a [u8]) -> Result<Address<'a>, AddressFault>
    ensures { address_seen result ≡ split_brackets lu_name.now text.now }
{
    match split_by(text, 0x5D) {
        None => Err(AddressFault::NoBracket),
        Some((host, rest)) => {
            if host.is_empty() {
                Err(AddressFault::NoHost)
            } else {
                after_bracket(lu_name, host, rest)
            }
        }
    }
}

/// The host, and the port, of a text without the name of a device.
fn split_host<'a>(lu_name: &'a [u8], text: &'a [u8]) -> Result<Address<'a>, AddressFault>
    ensures { address_seen result ≡ split_host lu_name.now text.now }
{
    match text {
        [] => Err(AddressFault::NoHost),
        [byte, rest @ ..] => {
            if *byte == 0x5B {
                split_brackets(lu_name, rest)
            } else {
                split_port(lu_name, text)
            }
        }
    }
}

/// What comes after the prefix `N:`, in either case.
fn after_prefix(text: &[u8]) -> &[u8]
    ensures { result.now ≡ after_prefix text.now }
{
    match text {
        [first, second, rest @ ..] => {
            if (*first == 0x4E || *first == 0x6E) && *second == 0x3A {
                rest
            } else {
                text
            }
        }
        _ => text,
    }
}

/// The address of a text without blanks and without a prefix.
fn split_name(text: &[u8]) -> Result<Address<'_>, AddressFault>
    ensures { address_seen result ≡ split_name text.now }
{
    match split_by(text, 0x40) {
        None => split_host(&[], text),
        Some((lu_name, rest)) => {
            if lu_name.is_empty() {
                return Err(AddressFault::NoLuName);
            }
            if has(rest, 0x40) {
                return Err(AddressFault::TwoAts);
            }
            split_host(lu_name, rest)
        }
    }
}

fn has_blank(text: &[u8]) -> bool
    ensures { result ≡ list_any is_blank text.now }
{
    text.iter().any(|byte| is_blank(*byte))
}

/// The address of a text without blanks around it.
fn read_trimmed(text: &[u8]) -> Result<Address<'_>, AddressFault>
    ensures { address_seen result ≡ read_trimmed text.now }
{
    match text {
        [] => Err(AddressFault::Empty),
        [_byte, ..] => {
            if has_blank(text) {
                Err(AddressFault::Blank)
            } else {
                split_name(after_prefix(text))
            }
        }
    }
}

/// The address that a text is: a host's name or number, between brackets where it has colons, with the name of a device and `@` before
/// it, and `:` and a port after it, where they are given. Blanks around it, and `N:` before it, are ignored.
///
/// # Errors
///
/// What the text lacks, or has too much.
pub fn read_address(text: &[u8]) -> Result<Address<'_>, AddressFault>
    ensures { address_seen result ≡ read_address text.now }
{
    read_trimmed(trimmed(text))
}

/// Adds the text before a fault's words.
fn push_text(out: &mut Vec<u8>, text: &str) -> Result<(), AllocError>
    ensures { IfOk result (λ done. out.new.items ≡ out.old.items ++ text.now) }
{
    out.extend_from_slice(text.as_bytes())
}

/// Adds what is said of a text that is no address, without a line end.
pub fn push_address_fault(
    out: &mut Vec<u8>,
    text: &[u8],
    fault: AddressFault,
) -> Result<(), AllocError>
    ensures { IfOk result (λ done. out.new.items
        ≡ out.old.items ++ address_fault_text text.now fault) }
{
    if fault == AddressFault::Empty {
        return push_text(out, "Invalid (empty) hostname");
    }
    push_syntax(out, text, fault_words(fault))
}

/// Adds that a text is no host's name, and in which words.
fn push_syntax(out: &mut Vec<u8>, text: &[u8], words: &str) -> Result<(), AllocError>
    ensures { IfOk result (λ done. out.new.items
        ≡ out.old.items ++ syntax_text text.now words.now) }
{
    push_text(out, "Hostname syntax error in '")?;
    out.extend_from_slice(text)?;
    push_text(out, "': ")?;
    push_text(out, words)?;
    Ok(())
}
