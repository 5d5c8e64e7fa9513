//! Places of a map.

ghost use Rattle.std.specs.Prelude.{◌≡◌, ◌≤◌, ◌<◌, ◌*◌, ◌+◌, ◌/◌, ◌%◌};

use ds_codec::Size;

/// The lines of the default screen.
pub(crate) const DEFAULT_ROWS: u16 = 24;

/// Lines and columns, each from 1 to 240.
#[derive(Clone, Copy, Debug, PartialEq, Eq)]
pub struct Extent {
    pub lines: u8,
    pub columns: u8,
    ghost some: { (0 < lines) × (0 < columns) },
}

/// Where a map lies, and how large it is.
#[derive(Clone, Copy, Debug, PartialEq, Eq)]
pub struct Area {
    pub screen: Size,
    /// The line and the column of the screen on which it begins, counted from 0.
    pub top: u8,
    pub left: u8,
    pub extent: Extent,
    ghost fits: { (top + extent.lines ≤ screen.rows) × (left + extent.columns ≤ screen.cols) },
    ghost small: { (screen.rows ≤ 43) × (screen.cols ≤ 132) },
}

impl Area {
    ghost use Rattle.bms_map.specs.Maps.{its_ground};
    ghost use Rattle.bms_map.specs.Overlaps.{cell_in, last_of};

    /// How many positions its screen has.
    pub fn cells(self) -> u32
        ensures cells { result ≡ self.screen.rows * self.screen.cols }
        ensures some { 0 < result }
    {
        self.screen.cells()
    }

    /// How many places it has.
    pub(crate) fn places(self) -> u32
        ensures places { result ≡ self.extent.lines * self.extent.columns }
        ensures few { result ≤ 65025 }
    {
        u32::from(self.extent.lines) * u32::from(self.extent.columns)
    }

    /// The position on the screen of a place that is counted from 0.
    pub(crate) fn cell(self, index: u32) -> u32
        requires { index ≤ 400000 }
        ensures cell { result ≡ cell_in (its_ground self) index }
        ensures small { result ≤ 60000000 }
    {
        let columns = u32::from(self.extent.columns);
        let row = u32::from(self.top) + index / columns;
        row * u32::from(self.screen.cols) + u32::from(self.left) + index % columns
    }

    /// The position of its last line and column.
    pub(crate) fn last(self) -> u32
        ensures { result ≡ last_of (its_ground self) }
    {
        self.cell(self.places().saturating_sub(1))
    }
}
