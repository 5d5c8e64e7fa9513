//! Replies to queries (GA23-0059, "Inbound structured fields").

ghost use Rattle.std.specs.Prelude.{◌≡◌, ◌<◌, ◌++◌, IfOk, OnOk};
ghost use Rattle.byteorder.specs.Endian.{big_bytes};
ghost use Rattle.ds_codec.specs.Geometry.{cells_of};
ghost use Rattle.ds_structured.specs.Fields.{wanted_seen};
ghost use Rattle.ds_structured.specs.Replies.{across_and_down, summary, points, usable_area, implicit_partition, is_wanted, where_wanted, replies, query_reply};

use crate::field::Wanted;
use byteorder::{BigEndian, ByteOrder};
use ds_codec::{Geometry, Size};
use std::alloc::{AllocError, Global};

const SUMMARY: u8 = 0x80;

const USABLE_AREA: u8 = 0x81;

const IMPLICIT_PARTITION: u8 = 0xA6;

fn push_pair(out: &mut Vec<u8>, number: u16) -> Result<(), AllocError>
    ensures { OnOk result (out.new.items ≡ out.old.items ++ big_bytes 2 number) }
{
    let mut pair = [0, 0];
    BigEndian::write_u16(&mut pair, number);
    out.extend_from_slice(&pair)
}

/// Adds the columns and the rows of a size.
fn push_size(out: &mut Vec<u8>, size: Size) -> Result<(), AllocError>
    ensures { OnOk result (out.new.items ≡ out.old.items ++ across_and_down size) }
{
    push_pair(out, size.cols)?;
    push_pair(out, size.rows)
}

fn push_summary(out: &mut Vec<u8>) -> Result<(), AllocError>
    ensures { OnOk result (out.new.items ≡ out.old.items ++ summary) }
{
    out.extend_from_slice(&[
        0x00,
        0x07,
        0x81,
        SUMMARY,
        SUMMARY,
        USABLE_AREA,
        IMPLICIT_PARTITION,
    ])
}

/// Adds how large a point is, how many there are in a cell, and how many cells.
fn push_points(out: &mut Vec<u8>, size: Size) -> Result<(), AllocError>
    requires { cells_of size < 65536 }
    ensures { OnOk result (out.new.items
        ≡ out.old.items ++ (points ++ big_bytes 2 (cells_of size))) }
{
    out.extend_from_slice(&[
        0x01, 0x00, 0x0A, 0x02, 0xE5, 0x00, 0x02, 0x00, 0x6F, 0x09, 0x0C,
    ])?;
    push_pair(out, size.rows * size.cols)
}

fn push_usable_area(out: &mut Vec<u8>, geometry: &Geometry) -> Result<(), AllocError>
    ensures { OnOk result (out.new.items ≡ out.old.items ++ usable_area geometry.now) }
{
    out.extend_from_slice(&[0x00, 0x17, 0x81, USABLE_AREA, 0x01, 0x00])?;
    push_size(out, geometry.alternate_size())?;
    push_points(out, geometry.alternate_size())
}

fn push_implicit_partition(out: &mut Vec<u8>, geometry: &Geometry) -> Result<(), AllocError>
    ensures { OnOk result (out.new.items ≡ out.old.items ++ implicit_partition geometry.now) }
{
    out.extend_from_slice(&[
        0x00,
        0x11,
        0x81,
        IMPLICIT_PARTITION,
        0x00,
        0x00,
        0x0B,
        0x01,
        0x00,
    ])?;
    push_size(out, geometry.default_size())?;
    push_size(out, geometry.alternate_size())
}

/// Whether a reply is wanted.
fn is_wanted(wanted: Wanted<'_>, code: u8) -> bool
    ensures { result ≡ is_wanted (wanted_seen wanted.entry) code }
{
    match wanted {
        Wanted::Each => true,
        Wanted::Listed(codes) => codes.contains(&code),
    }
}

fn push_wanted_summary(out: &mut Vec<u8>, wanted: Wanted<'_>) -> Result<(), AllocError>
    ensures { OnOk result (out.new.items
        ≡ out.old.items ++ where_wanted (wanted_seen wanted.entry) 0x80 summary) }
{
    if is_wanted(wanted, SUMMARY) {
        push_summary(out)?;
    }
    Ok(())
}

fn push_wanted_area(
    out: &mut Vec<u8>,
    geometry: &Geometry,
    wanted: Wanted<'_>,
) -> Result<(), AllocError>
    ensures { OnOk result (out.new.items ≡ out.old.items
        ++ where_wanted (wanted_seen wanted.entry) 0x81 (usable_area geometry.now)) }
{
    if is_wanted(wanted, USABLE_AREA) {
        push_usable_area(out, geometry)?;
    }
    Ok(())
}

fn push_wanted_partition(
    out: &mut Vec<u8>,
    geometry: &Geometry,
    wanted: Wanted<'_>,
) -> Result<(), AllocError>
    ensures { OnOk result (out.new.items ≡ out.old.items
        ++ where_wanted (wanted_seen wanted.entry) 0xA6 (implicit_partition geometry.now)) }
{
    if is_wanted(wanted, IMPLICIT_PARTITION) {
        push_implicit_partition(out, geometry)?;
    }
    Ok(())
}

/// Adds the replies that a query wants, of those that the terminal has.
fn push_replies(
    out: &mut Vec<u8>,
    geometry: &Geometry,
    wanted: Wanted<'_>,
) -> Result<(), AllocError>
    ensures { OnOk result (out.new.items
        ≡ out.old.items ++ replies geometry.now (wanted_seen wanted.entry)) }
{
    push_wanted_summary(out, wanted)?;
    push_wanted_area(out, geometry, wanted)?;
    push_wanted_partition(out, geometry, wanted)
}

/// The record that answers a query: the attention identifier 88, and a Query Reply for each that is wanted and that a terminal
/// without extended features has: Summary, 80, Usable Area, 81, and Implicit Partition, A6; the null reply, FF, where a list
/// names none of these. Sizes are in cells.
pub fn write_query_reply(
    alloc: Global,
    geometry: &Geometry,
    wanted: Wanted<'_>,
) -> Result<Vec<u8>, AllocError>
    ensures { IfOk result (λ bytes. bytes.items
        ≡ query_reply geometry.now (wanted_seen wanted.entry)) }
{
    let mut out = Vec::new(alloc);
    out.push(0x88)?;
    push_replies(&mut out, geometry, wanted)?;
    if out.len() == 1 {
        out.extend_from_slice(&[0x00, 0x04, 0x81, 0xFF])?;
    }
    Ok(out)
}
