//! Addressing modes and screen sizes.

ghost use Rattle.std.specs.Prelude.{◌≡◌, ◌*◌};

/// How buffer addresses are spelled (GA23-0059, "Buffer addressing").
#[derive(Clone, Copy, Debug, PartialEq, Eq)]
pub enum Mode {
    /// Addresses of 12 or 14 bits.
    Bits14,
    /// Addresses of 16 bits.
    Bits16,
}

impl Mode {
    ghost use Rattle.ds_codec.specs.declared.size.Mode.TheVariants.{Bits14};

    /// How a terminal spells addresses unless it is told otherwise.
    pub fn usual() -> Mode
        ensures { result ≡ Bits14 }
    {
        Mode::Bits14
    }
}

/// The rows and columns of a screen.
#[derive(Clone, Copy, Debug, PartialEq, Eq)]
pub struct Size {
    pub rows: u16,
    pub cols: u16,
}

impl Size {
    /// The number of character positions.
    pub fn cells(self) -> u32
        ensures { result ≡ self.rows * self.cols }
    {
        u32::from(self.rows) * u32::from(self.cols)
    }
}
