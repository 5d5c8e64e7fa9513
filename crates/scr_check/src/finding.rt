//! What the checker finds.

ghost use Rattle.std.specs.Prelude.{◌≡◌};
ghost use Rattle.scr_check.specs.FindingText.{finding_number, demo_of};

use ds_codec::Size;
use ds_terminal::Refused;

/// Keys that show a finding: Right so many times, then the character C1 so many times, then Enter.
#[derive(Clone, Copy, Debug, PartialEq, Eq)]
pub struct Demo {
    /// How often Right is pressed, 0 to the number of cells less 1.
    pub rights: u32,
    /// How often C1 is typed.
    pub types: u32,
}

/// A field with more cells than its entry declares.
#[derive(Clone, Copy, Debug, PartialEq, Eq)]
pub struct Overlong {
    /// The entry's index in the layout.
    pub entry: usize,
    /// The number of cells that the field has.
    pub length: u32,
    /// The number that the entry declares.
    pub declared: u32,
    /// For an input. A fixed field has none, as its text may be shorter than its cells.
    pub demo: Option<Demo>,
}

/// What stands against a layout. Records, positions and entries count from 0.
#[derive(Clone, Copy, Debug, PartialEq, Eq)]
pub enum Finding {
    /// F1: this record is refused.
    RecordRefused(usize, Refused),
    /// F2: there is no record.
    NoRecord,
    /// F3: the first record is no Erase/Write and no Erase/Write Alternate.
    FirstNotErase,
    /// F4: this record is a read or No-operation.
    NotAWrite(usize),
    /// F5: the keyboard stays locked.
    KeyboardLocked,
    /// F6: the screen has the first size, the layout is for the second.
    OtherSize(Size, Size),
    /// F7: there is no field.
    Unformatted,
    /// F8: an input at this place that no entry declares.
    Undeclared(u32, Demo),
    /// F9: a protected field at this place that comes modified and that no entry declares.
    UndeclaredFixed(u32, Demo),
    /// F10: no field stands at the place of this entry.
    Missing(usize),
    /// F11: a field is longer than declared.
    TooLong(Overlong),
    /// F12: this entry is an input where the field is protected, or the other way round.
    OtherKind(usize),
    /// F13: a field without cells at this place that comes modified.
    EmptyModified(u32),
    /// F14: this record of a later turn of a dialogue writes where the operator left the cursor. `check` never tells it.
    CursorDependent(usize),
    /// F15: selecting the field at this place, by Cursor Select or a light pen, changes a protected field or sets the tag of one
    /// without cells. Told only where the pen is asked for.
    Selectable(u32),
}

impl Finding {
    /// The number that stands behind the F of its line, 1 to 15.
    pub fn number(&self) -> u8
        ensures { result ≡ finding_number self.now }
    {
        match self {
            Finding::RecordRefused(_, _) => 1,
            Finding::NoRecord => 2,
            Finding::FirstNotErase => 3,
            Finding::NotAWrite(_) => 4,
            Finding::KeyboardLocked => 5,
            Finding::OtherSize(_, _) => 6,
            Finding::Unformatted => 7,
            Finding::Undeclared(_, _) => 8,
            Finding::UndeclaredFixed(_, _) => 9,
            Finding::Missing(_) => 10,
            Finding::TooLong(_) => 11,
            Finding::OtherKind(_) => 12,
            Finding::EmptyModified(_) => 13,
            Finding::CursorDependent(_) => 14,
            Finding::Selectable(_) => 15,
        }
    }

    /// The keys that show it, where it has some: F8, F9, and F11 of an input.
    pub fn demo(&self) -> Option<Demo>
        ensures { result ≡ demo_of self.now }
    {
        match self {
            Finding::Undeclared(_, demo) | Finding::UndeclaredFixed(_, demo) => Some(*demo),
            Finding::TooLong(found) => found.demo,
            _ => None,
        }
    }
}
