//! What `Wait` waits for.

ghost use Rattle.std.specs.Prelude.{◌≡◌, ◌<◌, ◌≤◌, ◌==◌, map, length};
ghost use Rattle.std.specs.List.{list_all, prefix_len};
ghost use Rattle.std.specs.Str.{str_eq_ignore_ascii_case};
ghost use Rattle.script_requests.specs.Waits.{meant_by, is_digit, digit_at, thousandths, at_least_one, whole_of, with_fraction, seconds_of, wait_of, with_limit, read_wait, wait_fault_text};

use script_keys::{Number, number_of};

/// What is waited for.
#[derive(Clone, Copy, Debug, PartialEq, Eq)]
pub enum Awaited {
    /// A formatted screen, a keyboard that doesn't wait for the host, and a cursor that isn't at 0.
    InputField,
    /// A session without 3270 data, which isn't had here.
    NvtMode,
    /// Records pass.
    Mode3270,
    /// A record came since the screen was read.
    Output,
    /// The keyboard doesn't wait for the host.
    Unlock,
    /// The session has ended.
    Disconnect,
    /// The time is over.
    Seconds,
}

/// What is waited for, and how long at most.
#[derive(Clone, Copy, Debug, PartialEq, Eq)]
pub struct Wait {
    pub what: Awaited,
    /// In thousandths of a second, as they are written; 0 is no limit, but with `Seconds` none at all.
    pub limit: Option<u32>,
}

/// Why nothing is waited for.
#[derive(Clone, Copy, Debug, PartialEq, Eq)]
pub enum WaitFault {
    /// No word for what is waited for.
    Parameter,
    /// More arguments than two, or no number before the word.
    Arguments,
}

fn is_word(text: &[u8], word: &str) -> bool
    ensures { result ≡ str_eq_ignore_ascii_case text.now word.now }
{
    text.eq_ignore_ascii_case(word.as_bytes())
}

/// What a word says, in either case.
fn meant_by(word: &[u8]) -> Option<Awaited>
    ensures { result ≡ meant_by word.now }
{
    if is_word(word, "inputfield") {
        return Some(Awaited::InputField);
    }
    if is_word(word, "output") {
        return Some(Awaited::Output);
    }
    if is_word(word, "unlock") {
        return Some(Awaited::Unlock);
    }
    if is_word(word, "3270mode") || is_word(word, "3270") {
        return Some(Awaited::Mode3270);
    }
    if is_word(word, "nvtmode") || is_word(word, "ansi") {
        return Some(Awaited::NvtMode);
    }
    if is_word(word, "disconnect") {
        return Some(Awaited::Disconnect);
    }
    if is_word(word, "seconds") {
        return Some(Awaited::Seconds);
    }
    None
}

fn is_digit(byte: u8) -> bool
    ensures { result ≡ is_digit byte }
{
    0x30 <= byte && byte <= 0x39
}

fn are_digits(bytes: &[u8]) -> bool
    ensures { result ≡ list_all is_digit bytes.now }
{
    bytes.iter().all(|byte| is_digit(*byte))
}

/// How many digits stand at the front.
fn digit_count(bytes: &[u8]) -> usize
    ensures count { result ≡ prefix_len is_digit bytes.now }
    ensures inside { result ≤ length bytes.now }
{
    for (i, byte) in bytes.iter().enumerate() {
        if !is_digit(*byte) {
            return i;
        }
    }
    bytes.len()
}

/// The value of a digit of a fraction, 0 after its last one.
fn digit_at(fraction: &[u8], index: usize) -> u32
    ensures value { result ≡ digit_at fraction.now index }
    ensures small { result < 10 }
{
    match fraction.get(index) {
        Some(digit) if is_digit(*digit) => u32::from(*digit - 0x30),
        _ => 0,
    }
}

/// The thousandths of a fraction, without what is less than one.
fn thousandths(fraction: &[u8]) -> u32
    ensures value { result ≡ thousandths fraction.now }
    ensures small { result < 1000 }
{
    100 * digit_at(fraction, 0) + (10 * digit_at(fraction, 1) + digit_at(fraction, 2))
}

/// Whole seconds, at most 999,999 of them.
fn whole_of(digits: &[u8]) -> u32
    ensures value { result ≡ whole_of digits.now }
    ensures small { result < 1000000 }
{
    match number_of(digits) {
        Number::Natural(value) => value.min(999_999),
        Number::Negative => 0,
    }
}

fn is_nothing(fraction: &[u8]) -> bool
    ensures { result ≡ list_all (λ digit. digit == 0x30) fraction.now }
{
    fraction.iter().all(|digit| *digit == 0x30)
}

/// A time that is more than nothing is no less than a thousandth.
fn at_least_one(time: u32, fraction: &[u8]) -> u32
    ensures { result ≡ at_least_one time fraction.now }
{
    if time == 0 {
        if is_nothing(fraction) { 0 } else { 1 }
    } else {
        time
    }
}

/// The time of a number of seconds: digits, or digits around a point, one at least; in thousandths.
fn seconds_of(text: &[u8]) -> Option<u32>
    ensures { result ≡ seconds_of text.now }
{
    let (whole, rest) = text.split_at(digit_count(text));
    match rest {
        [] => with_fraction(whole, &[]),
        [0x2E, fraction @ ..] => with_fraction(whole, fraction),
        _ => None,
    }
}

/// The time of whole seconds and a fraction, where there is a digit.
fn with_fraction(whole: &[u8], fraction: &[u8]) -> Option<u32>
    ensures { result ≡ with_fraction whole.now fraction.now }
{
    if (whole.is_empty() && fraction.is_empty()) || !are_digits(fraction) {
        return None;
    }
    let time = 1000 * whole_of(whole) + thousandths(fraction);
    Some(at_least_one(time, fraction))
}

/// What is waited for by a word, with or without a limit.
fn wait_of(word: &[u8], limit: Option<u32>) -> Result<Wait, WaitFault>
    ensures { result ≡ wait_of word.now limit }
{
    match meant_by(word) {
        None => Err(WaitFault::Parameter),
        Some(what) => {
            if what == Awaited::Seconds && limit.is_none() {
                Err(WaitFault::Parameter)
            } else {
                Ok(Wait { what, limit })
            }
        }
    }
}

/// What is waited for by a number and a word.
fn with_limit(seconds: &[u8], word: &[u8]) -> Result<Wait, WaitFault>
    ensures { result ≡ with_limit seconds.now word.now }
{
    match seconds_of(seconds) {
        None => Err(WaitFault::Arguments),
        Some(limit) => wait_of(word, Some(limit)),
    }
}

/// What the arguments of `Wait` ask for: a word, in either case, a number of seconds before it, or both; none is an input field.
///
/// # Errors
///
/// There is no such word, or no number before it, or there are more arguments.
pub fn read_wait(arguments: &[Vec<u8>]) -> Result<Wait, WaitFault>
    ensures { result ≡ read_wait (map (λ argument. argument.items) arguments.now) }
{
    match arguments {
        [] => Ok(Wait {
            what: Awaited::InputField,
            limit: None,
        }),
        [word] => match seconds_of(word) {
            Some(limit) => Ok(Wait {
                what: Awaited::InputField,
                limit: Some(limit),
            }),
            None => wait_of(word, None),
        },
        [seconds, word] => with_limit(seconds, word),
        _ => Err(WaitFault::Arguments),
    }
}

impl WaitFault {
    /// What s3270 says of it.
    pub fn text(self) -> &'static str
        ensures { result.now ≡ wait_fault_text self }
    {
        match self {
            WaitFault::Parameter => {
                "Wait(): Parameter must be inputfield, nvtmode, 3270mode, output, seconds, disconnect or unlock"
            }
            WaitFault::Arguments => "Too many arguments to Wait ()or invalid timeout value",
        }
    }
}
