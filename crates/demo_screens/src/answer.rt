//! What a terminal sends, by a list of its modified attributes: no field beside these is looked at.

ghost use Rattle.std.specs.Prelude.{◌≡◌, ◌++◌, nat_lt, false, length, OnOk, IfOk};
ghost use Rattle.ds_screen.specs.Picture.{cell_at};
ghost use Rattle.ds_screen.specs.Fields.{is_attribute, span_of, attributes_from};
ghost use Rattle.ds_inbound.specs.Answer.{field_sent, fields_sent, written_field, written_fields, bytes_sent};
ghost use Rattle.demo_screens.specs.Modified.{modified_places, IsAttributeAt};

use ds_codec::OrderCode;
use ds_inbound::{push_address, push_run, write_inbound};
use ds_screen::ring::{distance, next};
use ds_screen::{Cells, Screen};
use std::alloc::{AllocError, Global};

/// How many cells the attribute at a position governs.
fn governed_count<C: Cells>(screen: &Screen<C>, at: u32) -> u32
    requires { IsAttributeAt screen.now.cells at }
    ensures { result ≡ length (span_of screen.now.cells at) }
{
    let n = screen.size().cells();
    let place = next(n, at);
    match screen.attr_from(place) {
        Some(stop) => distance(n, place, stop),
        None => 0,
    }
}

/// The field of the attribute at a position: its mark, its place and its characters.
fn push_field<C: Cells>(out: &mut Vec<u8>, screen: &Screen<C>, at: u32) -> Result<(), AllocError>
    requires { IsAttributeAt screen.now.cells at }
    ensures { OnOk result (out.new.items ≡ out.old.items
        ++ written_field screen.now.geometry.mode (length screen.now.cells) (field_sent screen.now.cells at)) }
{
    let place = next(screen.size().cells(), at);
    let count = governed_count(screen, at);
    out.push(OrderCode::Sba.byte())?;
    push_address(out, screen, place)?;
    push_run(out, screen, place, count)?;
    Ok(())
}

/// The fields of the listed attributes, which are all that are modified.
fn push_fields<C: Cells>(
    out: &mut Vec<u8>,
    screen: &Screen<C>,
    listed: &[u32],
) -> Result<(), AllocError>
    requires { listed.now ≡ modified_places screen.now.cells }
    ensures { OnOk result (out.new.items ≡ out.old.items
        ++ written_fields screen.now.geometry.mode (length screen.now.cells) (fields_sent screen.now.cells (attributes_from screen.now.cells 0))) }
{
    'listed: for at in listed {
        push_field(out, screen, *at)?;
    }
    Ok(())
}

/// Whether there is an attribute.
fn is_formatted<C: Cells>(screen: &Screen<C>) -> bool
    ensures { result ≡ nat_lt 0 (length (attributes_from screen.now.cells 0)) }
{
    let _count = screen.size().cells();
    screen.attr_from(0).is_some()
}

/// The answer to Read Modified, where all modified attributes are listed. Takes time linear in the listed fields and
/// their cells; on an unformatted screen, in all cells.
pub(crate) fn write_listed<C: Cells>(
    alloc: Global,
    screen: &Screen<C>,
    listed: &[u32],
) -> Result<Vec<u8>, AllocError>
    requires { listed.now ≡ modified_places screen.now.cells }
    ensures { IfOk result (λ bytes. bytes.items ≡ bytes_sent screen.now false) }
{
    if screen.aid().is_short() || !is_formatted(screen) {
        return write_inbound(alloc, screen, false);
    }
    let mut out = Vec::new(alloc);
    out.push(screen.aid().byte())?;
    push_address(&mut out, screen, screen.cursor())?;
    push_fields(&mut out, screen, listed)?;
    Ok(out)
}
