//! Numbers in arguments.

ghost use Rattle.std.specs.Prelude.{◌≡◌, ◌<◌, true};
ghost use Rattle.script_keys.specs.Numbers.{is_digit, with_digit, value_from, value_of, negative, number_of};

/// A number as an argument writes it. From 100,000 on, numbers are taken for one that is as great at least.
#[derive(Clone, Copy, Debug, PartialEq, Eq)]
pub enum Number {
    /// Below 0.
    Negative,
    /// 0, or more.
    Natural(u32),
}

fn is_digit(byte: u8) -> bool
    ensures { result ≡ is_digit byte }
{
    0x30 <= byte && byte <= 0x39
}

/// The value with one digit more.
fn with_digit(value: u32, digit: u8) -> u32
    requires small { value < 1000000 }
    requires digit { is_digit digit ≡ true }
    ensures value { result ≡ with_digit value digit }
    ensures small { result < 1000000 }
{
    if value < 100_000 {
        10 * value + u32::from(digit - 0x30)
    } else {
        value
    }
}

/// The value of the digits at the front.
#[tactic(auto, unfolding(crate::specs::Numbers::value_from))]
fn value_of(bytes: &[u8]) -> u32
    ensures value { result ≡ value_of bytes.now }
    ensures small { result < 1000000 }
{
    let mut value = 0;
    let mut rest = bytes;
    'digits: while let Some((byte, others)) = rest.split_first() {
        if !is_digit(*byte) {
            return value;
        }
        value = with_digit(value, *byte);
        rest = others;
    }
    value
}

fn negative(value: u32) -> Number
    ensures { result ≡ negative value }
{
    if value == 0 {
        Number::Natural(0)
    } else {
        Number::Negative
    }
}

/// The number of an argument: an optional sign, and digits. What comes after them is ignored, and no digit is 0.
pub fn number_of(bytes: &[u8]) -> Number
    ensures { result ≡ number_of bytes.now }
{
    match bytes {
        [] => Number::Natural(0),
        [byte, digits @ ..] => {
            if *byte == 0x2D {
                return negative(value_of(digits));
            }
            if *byte == 0x2B {
                return Number::Natural(value_of(digits));
            }
            Number::Natural(value_of(bytes))
        }
    }
}
