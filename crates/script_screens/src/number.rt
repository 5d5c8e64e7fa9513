//! Numbers of arguments.

ghost use Rattle.std.specs.Prelude.{◌≡◌, ◌≤◌, ◌+◌, ◌*◌, ◌-◌, length, drop};
ghost use Rattle.std.specs.List.{prefix_len};
ghost use Rattle.script_screens.specs.Numbers.{is_blank, is_digit, capped, value_from, negated, signed, number_of};

fn is_blank(byte: u8) -> bool
    ensures { result ≡ is_blank byte }
{
    byte == 0x20 || (0x09 <= byte && byte <= 0x0D)
}

pub(crate) fn is_digit(byte: u8) -> bool
    ensures { result ≡ is_digit byte }
{
    0x30 <= byte && byte <= 0x39
}

/// How many blanks stand at the front.
fn blanks(text: &[u8]) -> usize
    ensures length { result ≡ prefix_len is_blank text.now }
    ensures inside { result ≤ length text.now }
{
    for (i, byte) in text.iter().enumerate() {
        if !is_blank(*byte) {
            return i;
        }
    }
    text.len()
}

/// A value and one more digit.
fn with_digit(value: u32, byte: u8) -> u32
    ensures { result ≡ capped (value * 10 + (byte - 0x30)) }
{
    let digit = u64::from(byte.saturating_sub(0x30));
    let more = u64::from(value) * 10 + digit;
    if more <= 0xFFFF_FFFF {
        more as u32
    } else {
        0xFFFF_FFFF
    }
}

/// The value of the digits at the front.
fn value_of(bytes: &[u8]) -> u32
    ensures { result ≡ value_from 0 bytes.now }
{
    let mut value: u32 = 0;
    for byte in bytes {
        if !is_digit(*byte) {
            return value;
        }
        value = with_digit(value, *byte);
    }
    value
}

fn negated(value: u32) -> Option<u32>
    ensures { result ≡ negated value }
{
    if value == 0 { Some(0) } else { None }
}

fn signed(text: &[u8]) -> Option<u32>
    ensures { result ≡ signed text.now }
{
    match text {
        [0x2D, digits @ ..] => negated(value_of(digits)),
        [0x2B, digits @ ..] => Some(value_of(digits)),
        _ => Some(value_of(text)),
    }
}

/// The number that an argument says, none where it is below 0: blanks, a sign or none, and digits are read, and what comes after them is
/// ignored. No digit is 0; a number above 4,294,967,295 is that one.
pub fn read_number(text: &[u8]) -> Option<u32>
    ensures { result ≡ number_of text.now }
{
    signed(&text[blanks(text)..])
}
