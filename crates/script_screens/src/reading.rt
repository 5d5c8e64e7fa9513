//! The reading actions.

ghost use Rattle.std.specs.Prelude.{◌≡◌, ◌++◌, map, IfOk};
ghost use Rattle.script_screens.specs.Lines.{Says};
ghost use Rattle.script_screens.specs.Reading.{region_said, cells_said, field_said, said_of_reading};

use crate::buffer::{asked_of, push_buffer};
use crate::cells::push_region;
use crate::code_page::CodePage;
use crate::field::push_cursor_field;
use crate::lines::{Outcome, push_fault};
use crate::region::{Region, RegionFault, region_of};
use crate::shown::Form;
use ds_screen::{PlaneCells, Screen};
use std::alloc::AllocError;

/// An action that reads the screen.
#[derive(Clone, Copy, Debug, PartialEq, Eq)]
pub enum Reading {
    Ascii,
    /// With rows and columns from 1.
    Ascii1,
    AsciiField,
    Ebcdic,
    /// With rows and columns from 1.
    Ebcdic1,
    EbcdicField,
    ReadBuffer,
}

/// Adds what is read of a region.
fn push_region_said(
    out: &mut Vec<u8>,
    screen: &Screen<PlaneCells>,
    code_page: CodePage,
    form: Form,
    name: &[u8],
    region: Result<Region, RegionFault>,
) -> Result<Outcome, AllocError>
    ensures { IfOk result (λ outcome. Says out.old.items out.new.items outcome
        (region_said code_page form screen.now name.now region)) }
{
    match region {
        Ok(region) => {
            push_region(out, screen, code_page, form, region)?;
            Ok(Outcome::Done)
        }
        Err(RegionFault::Count) => push_fault(out, name, b" requires 0, 1, 3 or 4 arguments"),
        Err(RegionFault::Invalid) => push_fault(out, name, b": Invalid argument"),
    }
}

/// Adds what Ascii or Ebcdic says, with rows and columns counted from an origin.
fn push_cells_said(
    out: &mut Vec<u8>,
    screen: &Screen<PlaneCells>,
    code_page: CodePage,
    form: Form,
    name: &[u8],
    origin: u32,
    arguments: &[Vec<u8>],
) -> Result<Outcome, AllocError>
    ensures { IfOk result (λ outcome. Says out.old.items out.new.items outcome
        (cells_said code_page form screen.now name.now origin
        (map (λ argument. argument.items) arguments.now))) }
{
    let region = region_of(screen.size(), screen.cursor(), origin, arguments);
    push_region_said(out, screen, code_page, form, name, region)
}

/// Adds what AsciiField or EbcdicField says.
fn push_field_said(
    out: &mut Vec<u8>,
    screen: &Screen<PlaneCells>,
    code_page: CodePage,
    form: Form,
    name: &[u8],
    arguments: &[Vec<u8>],
) -> Result<Outcome, AllocError>
    ensures { IfOk result (λ outcome. Says out.old.items out.new.items outcome
        (field_said code_page form screen.now name.now
        (map (λ argument. argument.items) arguments.now))) }
{
    match arguments {
        [] => push_cursor_field(out, screen, code_page, form, name),
        _ => push_fault(out, name, b"() requires 0 arguments"),
    }
}

/// Adds the data lines of a reading action, as s3270 4.1 says them, and tells how it ends. Ascii gives characters in UTF-8, with spaces
/// for nulls, attributes and all of a hidden field; Ebcdic codes; ReadBuffer all of each cell.
pub fn push_reading(
    out: &mut Vec<u8>,
    screen: &Screen<PlaneCells>,
    code_page: CodePage,
    reading: Reading,
    arguments: &[Vec<u8>],
) -> Result<Outcome, AllocError>
    ensures { IfOk result (λ outcome. Says out.old.items out.new.items outcome
        (said_of_reading code_page screen.now reading
        (map (λ argument. argument.items) arguments.now))) }
{
    let page = code_page;
    match reading {
        Reading::Ascii => push_cells_said(out, screen, page, Form::Ascii, b"Ascii", 0, arguments),
        Reading::Ascii1 => push_cells_said(out, screen, page, Form::Ascii, b"Ascii1", 1, arguments),
        Reading::Ebcdic => push_cells_said(
            out,
            screen,
            page,
            Form::Ebcdic,
            b"Ebcdic",
            0,
            arguments,
        ),
        Reading::Ebcdic1 => push_cells_said(
            out,
            screen,
            page,
            Form::Ebcdic,
            b"Ebcdic1",
            1,
            arguments,
        ),
        Reading::AsciiField => {
            push_field_said(out, screen, page, Form::Ascii, b"AsciiField", arguments)
        }
        Reading::EbcdicField => {
            push_field_said(out, screen, page, Form::Ebcdic, b"EbcdicField", arguments)
        }
        Reading::ReadBuffer => push_buffer(out, screen, page, asked_of(arguments)),
    }
}
