//! Findings, as they are printed.

ghost use Rattle.std.specs.Prelude.{◌≡◌, ◌++◌, [], Some, OnOk};
ghost use Rattle.std.specs.Fmt.{decimal};
ghost use Rattle.std.specs.String.{string_bytes};
ghost use Rattle.scr_check.specs.FindingText.{name_at, finding_text, missing_text, keys_end, overlong_text, other_kind_text};

use crate::finding::{Demo, Finding, Overlong};
use ds_codec::Size;
use ds_terminal::Refused;
use scr_layout::Entry;
use std::alloc::AllocError;
use std::fmt;

impl fmt::Display for Demo {
    ghost use Rattle.std.specs.Prelude.{Some};
    ghost use Rattle.scr_check.specs.FindingText.{demo_text};

    ghost output = { λ demo. Some (demo_text demo) };

    /// As `right 3, type 1`.
    fn fmt<W: fmt::Write>(&self, f: &mut fmt::Formatter<W>) -> fmt::Result {
        let Demo { rights, types } = *self;
        write!(f, "right {rights}, type {types}")
    }
}

/// The name of the layout's entry of this index; none where there is no such entry.
pub fn name_at(entries: &[Entry], index: usize) -> &str
    ensures { result.now ≡ name_at entries.now index }
{
    match entries.get(index) {
        Some(entry) => entry.name.as_str(),
        None => "",
    }
}

fn push_sizes(out: &mut String, shown: Size, declared: Size) -> Result<(), AllocError>
    ensures { OnOk result (string_bytes out.new
        ≡ string_bytes out.old ++ finding_text [] (Finding.OtherSize shown declared)) }
{
    let Size { rows, cols } = shown;
    write!(out, "F6 size {rows}x{cols}, layout ")?;
    let Size { rows, cols } = declared;
    write!(out, "{rows}x{cols}")
}

fn push_missing(out: &mut String, name: &str) -> Result<(), AllocError>
    ensures { OnOk result (string_bytes out.new ≡ string_bytes out.old ++ missing_text name.now) }
{
    write!(out, "F10 missing {name}")
}

fn push_keys(out: &mut String, demo: Option<Demo>) -> Result<(), AllocError>
    ensures { OnOk result (string_bytes out.new ≡ string_bytes out.old ++ keys_end demo) }
{
    match demo {
        Some(demo) => write!(out, ", keys: {demo}"),
        None => Ok(()),
    }
}

fn push_overlong(out: &mut String, name: &str, found: Overlong) -> Result<(), AllocError>
    ensures { OnOk result (string_bytes out.new
        ≡ string_bytes out.old ++ overlong_text name.now found) }
{
    let length = found.length;
    let declared = found.declared;
    write!(out, "F11 {name} length {length}, declared {declared}")?;
    push_keys(out, found.demo)
}

fn push_other_kind(out: &mut String, name: &str) -> Result<(), AllocError>
    ensures { OnOk result (string_bytes out.new
        ≡ string_bytes out.old ++ other_kind_text name.now) }
{
    write!(out, "F12 {name} is of the other kind")
}

fn push_refused(out: &mut String, index: usize, refused: Refused) -> Result<(), AllocError>
    ensures { OnOk result (string_bytes out.new
        ≡ string_bytes out.old ++ finding_text [] (Finding.RecordRefused index refused)) }
{
    write!(out, "F1 record {index} {refused}")
}

/// A front, a number, and a back.
fn push_record(out: &mut String, front: &str, index: usize, back: &str) -> Result<(), AllocError>
    ensures { OnOk result (string_bytes out.new
        ≡ string_bytes out.old ++ (front.now ++ (decimal index ++ back.now))) }
{
    write!(out, "{front}{index}{back}")
}

/// A front, a place, and the keys.
fn push_undeclared(out: &mut String, front: &str, place: u32, demo: Demo) -> Result<(), AllocError>
    ensures { OnOk result (string_bytes out.new
        ≡ string_bytes out.old ++ (front.now ++ (decimal place ++ keys_end (Some demo)))) }
{
    write!(out, "{front}{place}, keys: {demo}")
}

fn push_empty(out: &mut String, place: u32) -> Result<(), AllocError>
    ensures { OnOk result (string_bytes out.new
        ≡ string_bytes out.old ++ finding_text [] (Finding.EmptyModified place)) }
{
    write!(out, "F13 empty modified field at {place}")
}

fn push_selectable(out: &mut String, place: u32) -> Result<(), AllocError>
    ensures { OnOk result (string_bytes out.new
        ≡ string_bytes out.old ++ finding_text [] (Finding.Selectable place)) }
{
    write!(out, "F15 selectable at {place}")
}

impl Finding {
    ghost use Rattle.std.specs.Prelude.{◌≡◌, ◌++◌, OnOk};
    ghost use Rattle.std.specs.String.{string_bytes};
    ghost use Rattle.scr_check.specs.FindingText.{finding_text};

    /// Adds the text of the finding's line, without the line's end. Entries go by their names in the layout
    /// that was checked.
    pub fn push_text(self, out: &mut String, entries: &[Entry]) -> Result<(), AllocError>
        ensures { OnOk result (string_bytes out.new
            ≡ string_bytes out.old ++ finding_text entries.now self) }
    {
        match self {
            Finding::RecordRefused(index, refused) => push_refused(out, index, refused),
            Finding::NoRecord => out.push_str("F2 no record"),
            Finding::FirstNotErase => out.push_str("F3 first record does not erase"),
            Finding::NotAWrite(index) => push_record(out, "F4 record ", index, " is no write"),
            Finding::KeyboardLocked => out.push_str("F5 keyboard stays locked"),
            Finding::OtherSize(shown, declared) => push_sizes(out, shown, declared),
            Finding::Unformatted => out.push_str("F7 no field"),
            Finding::Undeclared(place, demo) => {
                push_undeclared(out, "F8 undeclared input at ", place, demo)
            }
            Finding::UndeclaredFixed(place, demo) => {
                push_undeclared(out, "F9 undeclared fixed at ", place, demo)
            }
            Finding::Missing(index) => push_missing(out, name_at(entries, index)),
            Finding::TooLong(found) => push_overlong(out, name_at(entries, found.entry), found),
            Finding::OtherKind(index) => push_other_kind(out, name_at(entries, index)),
            Finding::EmptyModified(place) => push_empty(out, place),
            Finding::CursorDependent(index) => {
                push_record(out, "F14 record ", index, " depends on the cursor")
            }
            Finding::Selectable(place) => push_selectable(out, place),
        }
    }
}
