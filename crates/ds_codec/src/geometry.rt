//! The two sizes of a terminal, within the limits of its addressing mode.

use crate::size::{Mode, Size};
use std::marker::Model;
use thiserror::Error;

/// A size that no terminal of the mode can have.
#[derive(Clone, Copy, Debug, PartialEq, Eq, Error)]
#[error("G1 BadSize")]
pub struct BadSize;

/// A default and an alternate size (GA23-0059, "Screen sizes"): each has 1 to 255 rows, 2 to 255
/// columns, and no more cells than the mode can address.
#[derive(Clone, Copy, Debug, PartialEq, Eq)]
pub struct Geometry {
    default: Size,
    alternate: Size,
    mode: Mode,
}

impl Model for Geometry {
    ghost use Rattle.ds_codec.specs.Geometry.{Sizes, IsGood};

    ghost Value = { Sizes };

    ghost view = { λ g. record { default = g.default; alternate = g.alternate; mode = g.mode } };

    ghost invariant = { λ g. IsGood g.mode g.default × IsGood g.mode g.alternate };

    ghost inverse = { λ v. record { default = v.default; alternate = v.alternate; mode = v.mode } };
}

impl Geometry {
    ghost use Rattle.std.specs.Prelude.{◌≡◌, IfOk, IsOk, ◌↔◌};
    ghost use Rattle.std.specs.Result.{result_ok};
    ghost use Rattle.ds_codec.specs.Geometry.{IsGood, geometry_of};

    /// The geometry of these sizes, refused exactly where one of them is outside the limits.
    pub fn new(default: Size, alternate: Size, mode: Mode) -> Result<Geometry, BadSize>
        ensures sizes { IfOk result
            (λ g. g ≡ record { default = default; alternate = alternate; mode = mode }) }
        ensures good { IsOk result ↔ (IsGood mode default × IsGood mode alternate) }
        ensures exact { result_ok result ≡ geometry_of default alternate mode }
    {
        if is_good(mode, default) && is_good(mode, alternate) {
            Ok(Geometry {
                default,
                alternate,
                mode,
            })
        } else {
            Err(BadSize)
        }
    }

    /// The size that Erase/Write sets.
    pub fn default_size(&self) -> Size
        ensures value { result ≡ self.now.default }
        ensures good { IsGood self.now.mode result }
    {
        self.default
    }

    /// The size that Erase/Write Alternate sets.
    pub fn alternate_size(&self) -> Size
        ensures value { result ≡ self.now.alternate }
        ensures good { IsGood self.now.mode result }
    {
        self.alternate
    }

    /// How addresses are spelled.
    pub fn mode(&self) -> Mode
        ensures { result ≡ self.now.mode }
    {
        self.mode
    }
}

ghost use Rattle.std.specs.Prelude.{IsTrue, ◌↔◌, ◌≡◌};
ghost use Rattle.ds_codec.specs.Geometry.{IsGood, is_good, limit_of};

/// The most cells that a mode can address.
pub fn most_cells(mode: Mode) -> u32
    ensures { result ≡ limit_of mode }
{
    match mode {
        Mode::Bits14 => 16_384,
        Mode::Bits16 => 65_025,
    }
}

fn is_good(mode: Mode, size: Size) -> bool
    ensures fact { IsTrue result ↔ IsGood mode size }
    ensures exact { result ≡ is_good mode size }
{
    1 <= size.rows
        && size.rows <= 255
        && 2 <= size.cols
        && size.cols <= 255
        && size.cells() <= most_cells(mode)
}
