//! Bits of a write control character.

ghost use Rattle.std.specs.Prelude.{◌<◌};

/// Six bits of a write control character.
#[derive(Clone, Copy, Debug, PartialEq, Eq)]
pub struct Bits {
    pub bits: u8,
    ghost six: { bits < 64 },
}
