//! ReadBuffer.

ghost use Rattle.std.specs.Prelude.{◌≡◌, ◌<◌, ◌++◌, codes, map, length, false, IfOk, OnOk};
ghost use Rattle.std.specs.Fmt.{decimal};
ghost use Rattle.ds_screen.specs.Fields.{attribute_before};
ghost use Rattle.script_screens.specs.declared.shown.Form.TheVariants.{BufferAscii};
ghost use Rattle.script_screens.specs.Fields.{field_length};
ghost use Rattle.ds_codec.specs.Geometry.{cells_of};
ghost use Rattle.script_screens.specs.declared.region.Region.{Region};
ghost use Rattle.script_screens.specs.Lines.{data_line, data_lines, done, Says};
ghost use Rattle.script_screens.specs.Cells.{line_text, region_texts};
ghost use Rattle.script_screens.specs.Reading.{asked_word, asked_of, place_words, place_texts, buffer_field_texts, buffer_field_said, buffer_said};

use crate::cells::{columns, push_region, push_run};
use crate::code_page::CodePage;
use crate::field::field_length;
use crate::lines::{Outcome, begin_line, end_line, push_decimal, push_fault};
use crate::region::{Region, Run};
use crate::shown::Form;
use ds_screen::{PlaneCells, Screen};
use std::alloc::AllocError;

/// What ReadBuffer is asked for.
#[derive(Clone, Copy, Debug, PartialEq, Eq)]
pub(crate) struct Asked {
    form: Form,
    /// The cursor's field alone.
    field: bool,
}

/// What is asked for with one more word.
fn asked_word(asked: Asked, word: &[u8]) -> Option<Asked>
    ensures { result ≡ asked_word asked word.now }
{
    let Asked { form, field } = asked;
    if word.eq_ignore_ascii_case(b"ascii") {
        return Some(Asked {
            form: Form::BufferAscii,
            field,
        });
    }
    if word.eq_ignore_ascii_case(b"ebcdic") {
        return Some(Asked {
            form: Form::BufferEbcdic,
            field,
        });
    }
    if word.eq_ignore_ascii_case(b"unicode") {
        return Some(Asked {
            form: Form::BufferUnicode,
            field,
        });
    }
    if word.eq_ignore_ascii_case(b"field") {
        return Some(Asked { form, field: true });
    }
    None
}

/// What words ask for.
pub(crate) fn asked_of(words: &[Vec<u8>]) -> Option<Asked>
    ensures { result ≡ asked_of (map (λ word. word.items) words.now) }
{
    let mut asked = Asked {
        form: Form::BufferAscii,
        field: false,
    };
    for word in words {
        match asked_word(asked, word) {
            Some(more) => asked = more,
            None => return None,
        }
    }
    Some(asked)
}

/// Adds the row and the column of a position, from 1.
fn push_place(out: &mut Vec<u8>, columns: u16, place: u32) -> Result<(), AllocError>
    requires { 0 < columns }
    ensures { OnOk result (out.new.items ≡ out.old.items ++ place_words columns place) }
{
    let (place, columns) = (u64::from(place), u64::from(columns));
    push_decimal(out, place / columns + 1)?;
    out.extend_from_slice(b" ")?;
    push_decimal(out, place % columns + 1)
}

/// Adds a data line of a position's row and column.
fn push_place_line(
    out: &mut Vec<u8>,
    name: &[u8],
    screen: &Screen<PlaneCells>,
    place: u32,
) -> Result<(), AllocError>
    ensures { OnOk result (out.new.items
        ≡ out.old.items ++ data_line (name.now ++ place_words screen.now.size.cols place)) }
{
    begin_line(out)?;
    out.extend_from_slice(name)?;
    push_place(out, columns(screen), place)?;
    end_line(out)
}

/// Adds a data line of a position.
fn push_offset_line(out: &mut Vec<u8>, name: &[u8], place: u32) -> Result<(), AllocError>
    ensures { OnOk result (out.new.items ≡ out.old.items ++ data_line (name.now ++ decimal place)) }
{
    begin_line(out)?;
    out.extend_from_slice(name)?;
    push_decimal(out, u64::from(place))?;
    end_line(out)
}

/// Adds the text of an attribute and its field.
fn push_contents_text(
    out: &mut Vec<u8>,
    screen: &Screen<PlaneCells>,
    code_page: CodePage,
    form: Form,
    run: Run,
) -> Result<(), AllocError>
    ensures { OnOk result (out.new.items ≡ out.old.items
        ++ (codes "Contents: " ++ line_text code_page form screen.now.cells run)) }
{
    out.extend_from_slice(b"Contents: ")?;
    push_run(out, screen, code_page, form, run)
}

/// Adds the data line of an attribute and its field.
fn push_contents(
    out: &mut Vec<u8>,
    screen: &Screen<PlaneCells>,
    code_page: CodePage,
    form: Form,
    run: Run,
) -> Result<(), AllocError>
    ensures { OnOk result (out.new.items ≡ out.old.items
        ++ data_line (codes "Contents: " ++ line_text code_page form screen.now.cells run)) }
{
    begin_line(out)?;
    push_contents_text(out, screen, code_page, form, run)?;
    end_line(out)
}

/// Adds the data lines of where an attribute and the cursor stand.
fn push_places(
    out: &mut Vec<u8>,
    screen: &Screen<PlaneCells>,
    at: u32,
    cursor: u32,
) -> Result<(), AllocError>
    ensures { OnOk result (out.new.items
        ≡ out.old.items ++ data_lines (place_texts screen.now.size.cols at cursor)) }
{
    push_place_line(out, b"Start1: ", screen, at)?;
    push_offset_line(out, b"StartOffset: ", at)?;
    push_place_line(out, b"Cursor1: ", screen, cursor)?;
    push_offset_line(out, b"CursorOffset: ", cursor)?;
    Ok(())
}

/// Adds the data lines of the field of an attribute.
fn push_buffer_field(
    out: &mut Vec<u8>,
    screen: &Screen<PlaneCells>,
    code_page: CodePage,
    form: Form,
    at: u32,
) -> Result<(), AllocError>
    requires { at < length screen.now.cells }
    ensures { OnOk result (out.new.items
        ≡ out.old.items ++ data_lines (buffer_field_texts code_page form screen.now at)) }
{
    let run = Run {
        start: at,
        length: field_length(screen, at) + 1,
    };
    push_places(out, screen, at, screen.cursor())?;
    push_contents(out, screen, code_page, form, run)?;
    Ok(())
}

/// Adds the data lines of the cursor's field.
fn push_cursor_buffer(
    out: &mut Vec<u8>,
    screen: &Screen<PlaneCells>,
    code_page: CodePage,
    form: Form,
) -> Result<Outcome, AllocError>
    ensures { IfOk result (λ outcome. Says out.old.items out.new.items outcome
        (buffer_field_said code_page form screen.now
        (attribute_before screen.now.cells screen.now.cursor))) }
{
    let cursor = screen.cursor();
    match screen.attr_before(cursor) {
        Some(at) => {
            push_buffer_field(out, screen, code_page, form, at)?;
            Ok(Outcome::Done)
        }
        None => push_fault(out, b"ReadBuffer(): ", b"no field"),
    }
}

/// Adds the data lines of all cells.
fn push_whole(
    out: &mut Vec<u8>,
    screen: &Screen<PlaneCells>,
    code_page: CodePage,
    form: Form,
) -> Result<Outcome, AllocError>
    ensures { IfOk result (λ outcome. Says out.old.items out.new.items outcome
        (done (region_texts code_page form screen.now
        (Region.Stretch 0 (cells_of screen.now.size))))) }
{
    let region = Region::Stretch(0, screen.size().cells());
    push_region(out, screen, code_page, form, region)?;
    Ok(Outcome::Done)
}

/// Adds what ReadBuffer says.
pub(crate) fn push_buffer(
    out: &mut Vec<u8>,
    screen: &Screen<PlaneCells>,
    code_page: CodePage,
    asked: Option<Asked>,
) -> Result<Outcome, AllocError>
    ensures { IfOk result (λ outcome. Says out.old.items out.new.items outcome
        (buffer_said code_page screen.now asked)) }
{
    match asked {
        Some(Asked { form, field: true }) => push_cursor_buffer(out, screen, code_page, form),
        Some(Asked { form, field: false }) => push_whole(out, screen, code_page, form),
        None => push_fault(
            out,
            b"ReadBuffer(): ",
            b"Parameter must be ascii, ebcdic, unicode or field",
        ),
    }
}
