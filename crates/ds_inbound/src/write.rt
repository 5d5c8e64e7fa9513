//! Answers written (GA23-0059, "Read operations").

ghost use Rattle.std.specs.Prelude.{◌≡◌, ◌++◌, ◌∷◌, ◌<◌, ◌≤◌, not, ◌&&◌, length, map, Some, Ok, IfOk, OnOk};
ghost use Rattle.std.specs.List.{range_with_len};
ghost use Rattle.ds_codec.specs.Address.{six_bit_code, written_address};
ghost use Rattle.ds_codec.specs.Attribute.{is_modified};
ghost use Rattle.ds_codec.specs.Writing.{written_character};
ghost use Rattle.ds_screen.specs.Ring.{ring_on};
ghost use Rattle.ds_screen.specs.Picture.{IsSound};
ghost use Rattle.ds_screen.specs.Fields.{attributes_from};
ghost use Rattle.ds_inbound.specs.Answer.{is_null, characters_at, field_sent, fields_sent, lead_sent, answer_of, written_characters, written_field, written_fields, bytes_sent, written_cell, buffer_of};
ghost use Rattle.ds_codec.specs.Aid.{is_short_aid};
ghost use Rattle.ds_inbound.specs.Inbound.{SaysOnly};
ghost use Rattle.ds_inbound.specs.Reading.{read_of};
ghost use Rattle.ds_inbound.specs.Sending.{sent_in, has_places, IsFieldOf};

use ds_codec::{Aid, Cell, Char, OrderCode, encode_address, push_character, to_six_bit_code};
use ds_screen::ring::next;
use ds_screen::{Cells, FieldAt, Screen};
use std::alloc::{AllocError, Global};

/// The bytes that answer Read Modified; with `all` Read Modified All, which answers no attention identifier alone
/// (GA23-0059, "Read Modified" and "Read Modified All"). After PA1 to PA3 and Clear Read Modified sends the attention
/// identifier alone. Else it and the cursor's address are sent, and then on a formatted screen each modified
/// field, protected or not, in rising order of the attributes: 11, the address behind the attribute and the field's
/// characters without nulls; on an unformatted screen all characters without nulls. Addresses are written for the
/// number of cells of the size in use. Takes time linear in the cells.
pub fn write_inbound<C: Cells>(
    alloc: Global,
    screen: &Screen<C>,
    all: bool,
) -> Result<Vec<u8>, AllocError>
    ensures written { IfOk result (λ bytes. bytes.items ≡ bytes_sent screen.now all) }
    ensures again { IfOk result
        (λ bytes. read_of screen.now.geometry.mode (length screen.now.cells) bytes.items ≡ Ok
        (answer_of screen.now all)) }
    ensures only { IfOk result (λ bytes. SaysOnly screen.now.geometry.mode
        (length screen.now.cells) (answer_of screen.now all) bytes.items) }
{
    write_answer(alloc, screen, all)
}

/// The bytes that answer Read Buffer (GA23-0059, "Read Buffer"): the attention identifier, the cursor's address and
/// every cell, an attribute as 1D and its six bits, a character as its code, behind 08 where it is of the alternate
/// set. Takes time linear in the cells.
pub fn write_buffer<C: Cells>(alloc: Global, screen: &Screen<C>) -> Result<Vec<u8>, AllocError>
    ensures { IfOk result (λ bytes. bytes.items ≡ buffer_of screen.now) }
{
    let n = screen.size().cells();
    let mut out = Vec::with_capacity(alloc, 2 * n as usize + 3)?;
    out.push(screen.aid().byte())?;
    push_address(&mut out, screen, screen.cursor())?;
    'places: for p in 0..n {
        push_cell(&mut out, screen.cell(p))?;
    }
    Ok(out)
}

/// Whether a character is the null.
fn is_null(character: Char) -> bool
    ensures { result ≡ is_null character }
{
    !character.alt() && character.code() == 0
}

/// What is sent of a cell: its character, nothing of a null or an attribute.
fn push_sent(out: &mut Vec<u8>, cell: Cell) -> Result<(), AllocError>
    ensures { OnOk result
        (out.new.items ≡ out.old.items ++ written_characters (sent_in cell)) }
{
    match cell {
        Cell::Field(_) => Ok(()),
        Cell::Char(character) => {
            if is_null(character) {
                Ok(())
            } else {
                push_character(out, character)
            }
        }
    }
}

/// Adds what is sent of so many cells, from one on round the buffer: their characters but nulls.
///
/// # Errors
///
/// Where a request for memory was refused.
pub fn push_run<C: Cells>(
    out: &mut Vec<u8>,
    screen: &Screen<C>,
    place: u32,
    count: u32,
) -> Result<(), AllocError>
    requires inside { place < length screen.now.cells }
    requires few { count ≤ length screen.now.cells }
    ensures { OnOk result (out.new.items ≡ out.old.items
        ++ written_characters (characters_at screen.now.cells
        (map (ring_on (length screen.now.cells) place) (range_with_len 0 count)))) }
{
    let n = screen.size().cells();
    let mut p = place;
    'places: for steps in 0..count {
        push_sent(out, screen.cell(p))?;
        p = next(n, p);
    }
    Ok(())
}

/// Adds an address, as it is written for the number of cells of the size in use.
///
/// # Errors
///
/// Where a request for memory was refused.
pub fn push_address<C: Cells>(
    out: &mut Vec<u8>,
    screen: &Screen<C>,
    address: u32,
) -> Result<(), AllocError>
    requires { address < length screen.now.cells }
    ensures { OnOk result (out.new.items
        ≡ out.old.items ++ written_address screen.now.geometry.mode
        (length screen.now.cells) address) }
{
    let n = screen.size().cells();
    out.extend_from_slice(&encode_address(screen.geometry().mode(), n, address))
}

/// A field: its mark, its place and its characters.
fn push_field<C: Cells>(
    out: &mut Vec<u8>,
    screen: &Screen<C>,
    field: &FieldAt,
) -> Result<(), AllocError>
    requires { IsFieldOf screen.now.cells field.now }
    ensures { OnOk result (out.new.items ≡ out.old.items
        ++ written_field screen.now.geometry.mode (length screen.now.cells) (field_sent screen.now.cells field.now.at)) }
{
    out.push(OrderCode::Sba.byte())?;
    push_address(out, screen, field.place)?;
    push_run(out, screen, field.place, field.length)?;
    Ok(())
}

/// The modified fields.
fn push_fields<C: Cells>(out: &mut Vec<u8>, screen: &Screen<C>) -> Result<(), AllocError>
    ensures { OnOk result (out.new.items ≡ out.old.items
        ++ written_fields screen.now.geometry.mode (length screen.now.cells) (fields_sent screen.now.cells (attributes_from screen.now.cells 0))) }
{
    'fields: for field in screen.fields() {
        if field.attr.modified() {
            push_field(out, screen, &field)?;
        }
    }
    Ok(())
}

/// Whether there is an attribute.
fn is_formatted<C: Cells>(screen: &Screen<C>) -> bool
    ensures { result ≡ has_places (attributes_from screen.now.cells 0) }
{
    let mut fields = screen.fields();
    match fields.next() {
        Some(_) => true,
        None => false,
    }
}

/// The characters of an unformatted screen.
fn push_lead<C: Cells>(out: &mut Vec<u8>, screen: &Screen<C>) -> Result<(), AllocError>
    ensures { OnOk result
        (out.new.items ≡ out.old.items ++ written_characters
        (lead_sent screen.now.cells (attributes_from screen.now.cells 0))) }
{
    if !is_formatted(screen) {
        push_run(out, screen, 0, screen.size().cells())?;
    }
    Ok(())
}

/// Whether nothing but the attention identifier is sent.
fn is_sent_alone(aid: Aid, all: bool) -> bool
    ensures { result ≡ (is_short_aid aid && not all) }
{
    aid.is_short() && !all
}

fn write_answer<C: Cells>(
    alloc: Global,
    screen: &Screen<C>,
    all: bool,
) -> Result<Vec<u8>, AllocError>
    ensures written { IfOk result (λ bytes. bytes.items ≡ bytes_sent screen.now all) }
    ensures sound { IsSound screen.now }
{
    let n = screen.size().cells();
    let aid = screen.aid();
    if is_sent_alone(aid, all) {
        let mut out = Vec::with_capacity(alloc, 1)?;
        out.push(aid.byte())?;
        return Ok(out);
    }
    let mut out = Vec::with_capacity(alloc, 3 * n as usize + 3)?;
    out.push(aid.byte())?;
    push_address(&mut out, screen, screen.cursor())?;
    push_lead(&mut out, screen)?;
    push_fields(&mut out, screen)?;
    Ok(out)
}

/// A cell, whatever it holds.
fn push_cell(out: &mut Vec<u8>, cell: Cell) -> Result<(), AllocError>
    ensures { OnOk result (out.new.items ≡ out.old.items ++ written_cell cell) }
{
    match cell {
        Cell::Field(attribute) => out.extend_from_slice(&[
            OrderCode::Sf.byte(),
            to_six_bit_code(attribute.bits()),
        ]),
        Cell::Char(character) => push_character(out, character),
    }
}
