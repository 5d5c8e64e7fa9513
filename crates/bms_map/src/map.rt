//! A map.

use crate::bits::Bits;
use crate::field::{Field, Looks};
use crate::place::Area;
use std::marker::Model;

/// A map: its fields in the order of their attributes on the screen.
#[derive(Debug, Drop)]
pub struct Map {
    /// In upper case.
    pub name: Vec<u8>,
    /// The number of the line of its DFHMDI.
    pub line: usize,
    pub area: Area,
    /// The bits of the write control character, where CTRL says them.
    pub control: Bits,
    pub looks: Looks,
    pub fields: Vec<Field>,
    /// The position of the attribute before the cursor, where a field has IC.
    pub cursor: Option<u32>,
}

impl Model for Map {
    ghost use Rattle.bms_map.specs.Maps.{Sheet, its_ground};

    ghost Value = { Sheet };

    ghost view = { λ m. record { name = m.name.items; line = m.line; area = its_ground m.area; control = m.control.bits; looks = m.looks; fields = m.fields.items; cursor = m.cursor } };
}
