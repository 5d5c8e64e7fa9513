//! Where a character of a text stands.

ghost use Rattle.std.specs.Prelude.{◌≡◌};
ghost use Rattle.hex.specs.Hex.{is_hex_digit};
ghost use Rattle.cli_characters.specs.declared.place.Place.TheVariants.{Half};
ghost use Rattle.cli_characters.specs.Operand.{first_digit, may_end, step};

use crate::table::code_of;
use ds_codec::byte_of_digits;

/// Where a character stands in what follows `TEXT`.
#[derive(Clone, Copy, Debug, PartialEq, Eq)]
pub enum Place {
    /// At the front of a run.
    Begins,
    /// Between quotes.
    Inside,
    /// After a quote, which ends the characters unless another follows.
    Quote,
    /// After the digits of a byte.
    Digits,
    /// After the first digit of a byte, which is this character.
    Half(u8),
}

/// The code of a quote.
const QUOTE: u8 = 0x7D;

/// Whether a character is a hexadecimal digit, of either case.
fn is_digit(character: u8) -> bool
    ensures { result ≡ is_hex_digit character }
{
    matches!(character, b'0'..=b'9' | b'A'..=b'F' | b'a'..=b'f')
}

/// After the first digit of a byte.
fn first_digit(character: u8) -> Option<(Place, Option<u8>)>
    ensures { result ≡ first_digit character }
{
    if is_digit(character) {
        Some((Place::Half(character), None))
    } else {
        None
    }
}

/// After the second digit of a byte.
fn second_digit(high: u8, character: u8) -> Option<(Place, Option<u8>)>
    ensures { result ≡ step (Half high) character }
{
    let byte = byte_of_digits(high, character)?;
    Some((Place::Digits, Some(byte)))
}

impl Place {
    /// Where a character leads that stands here, and the byte that it completes.
    pub(crate) fn step(self, character: u8) -> Option<(Place, Option<u8>)>
        ensures { result ≡ step self character }
    {
        match (self, character) {
            (Place::Begins, b'\'') => Some((Place::Inside, None)),
            (Place::Inside, b'\'') => Some((Place::Quote, None)),
            (Place::Inside, _) => Some((Place::Inside, Some(code_of(character)?))),
            (Place::Quote, b'\'') => Some((Place::Inside, Some(QUOTE))),
            (Place::Quote | Place::Digits, b' ') => Some((Place::Begins, None)),
            (Place::Quote, _) => None,
            (Place::Begins | Place::Digits, _) => first_digit(character),
            (Place::Half(high), _) => second_digit(high, character),
        }
    }

    /// Whether a text may end here.
    pub(crate) fn may_end(self) -> bool
        ensures { result ≡ may_end self }
    {
        matches!(self, Place::Quote | Place::Digits)
    }
}
