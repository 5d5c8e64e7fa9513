//! A size as a text: rows, an `x`, columns.

ghost use Rattle.std.specs.Prelude.{◌≡◌, IfSome};
ghost use Rattle.ds_codec.specs.declared.size.Size.{Size};
ghost use Rattle.ds_codec.specs.Geometry.{IsGood, is_good};
ghost use Rattle.scr_layout.specs.SizeText.{number_of, size_of_text, size_text};

use ds_codec::{Geometry, Mode, Size};

/// Whether a terminal can have the size.
fn is_good(mode: Mode, size: Size) -> bool
    ensures { result ≡ is_good mode size }
{
    Geometry::new(size, size, mode).is_ok()
}

/// The number that decimal digits spell, the first of them 1 to 9.
#[tactic(auto, unfolding(crate::specs::SizeText::number_of))]
fn number_of(digits: &str) -> Option<u16>
    ensures { result ≡ number_of digits.now }
{
    match digits.as_bytes() {
        [b'1'..=b'9', ..] => digits.parse::<u16>().ok(),
        _ => None,
    }
}

/// The size that `RxC` spells, rows and columns in decimal digits without leading zeros, where a terminal can
/// have it; `None` for any other text. A size has one spelling.
pub fn size_of_text(mode: Mode, text: &str) -> Option<Size>
    ensures spelled { IfSome result (λ size. IsGood mode size × (text.now ≡ size_text size)) }
    ensures only { (size : Size) → IsGood mode size → text.now ≡ size_text size →
        result ≡ Some size }
    ensures exact { result ≡ size_of_text mode text.now }
{
    read_size(mode, text)
}

#[tactic(auto, unfolding(crate::specs::SizeText::size_of_text))]
fn read_size(mode: Mode, text: &str) -> Option<Size>
    ensures { result ≡ size_of_text mode text.now }
{
    let (rows, cols) = text.split_once('x')?;
    let size = Size {
        rows: number_of(rows)?,
        cols: number_of(cols)?,
    };
    if is_good(mode, size) {
        Some(size)
    } else {
        None
    }
}
