//! The text of records.

ghost use Rattle.std.specs.Prelude.{◌≡◌, ◌++◌, OnOk};
ghost use Rattle.std.specs.String.{string_bytes};
ghost use Rattle.tn_traces.specs.Held.{kept_seen};
ghost use Rattle.cli_traces.specs.Open.{open_text};
ghost use Rattle.cli_traces.specs.Text.{has_fields, shape_of, fields_word, fields_number, fields_head, fields_line, fields_text, is_3270, is_line, type_name, header_words, number_words, comment_text, bytes_text, record_text, connection_text, plain_head, plain_text, refused_text, wire_name, header_name, fault_text};

use crate::fields::{after_first, push_names};
use order_lines::push_bytes;
use std::alloc::AllocError;
use tn_traces::{Kept, Side};
use tn_wire::{DataType, Header, HeaderFault, WireFault};

fn is_3270(header: &Option<Header>) -> bool
    ensures { result ≡ is_3270 header.now }
{
    match header {
        None => true,
        Some(header) => header.data_type == DataType::Data3270,
    }
}

/// How a record is printed.
#[derive(Clone, Copy, Debug, PartialEq, Eq)]
pub(crate) enum Shape {
    /// A comment alone: it isn't 3270 data, or has no byte.
    Comment,
    /// A comment and a line of bytes.
    Line,
    /// Structured fields: a comment with their bytes and names, and the records that they draw.
    Fields,
}

/// Whether a record of 3270 data has a byte.
fn is_line(kept: &Kept<'_>) -> bool
    ensures { result ≡ is_line (kept_seen kept.now) }
{
    is_3270(&kept.header) && !kept.body.is_empty()
}

/// Write Structured Field of the host, and the terminal's AID of structured fields.
#[tactic(auto, unfolding(crate::specs::Text::has_fields))]
fn has_fields(side: Side, body: &[u8]) -> bool
    ensures { result ≡ has_fields side body.now }
{
    match (side, body) {
        (Side::Host, [code, ..]) => *code == 0xF3 || *code == 0x11,
        (Side::Terminal, [aid, ..]) => *aid == 0x88,
        (_, []) => false,
    }
}

/// How a record is printed, where `all` says whether structured fields are lines.
pub(crate) fn shape_of(all: bool, side: Side, kept: &Kept<'_>) -> Shape
    ensures { result ≡ shape_of all side (kept_seen kept.now) }
{
    if !is_line(kept) {
        return Shape::Comment;
    }
    if !all && has_fields(side, kept.body) {
        Shape::Fields
    } else {
        Shape::Line
    }
}

fn type_name(data_type: DataType) -> &'static str
    ensures { result.now ≡ type_name data_type }
{
    match data_type {
        DataType::Data3270 => "3270-DATA",
        DataType::ScsData => "SCS-DATA",
        DataType::Response => "RESPONSE",
        DataType::BindImage => "BIND-IMAGE",
        DataType::Unbind => "UNBIND",
        DataType::NvtData => "NVT-DATA",
        DataType::Request => "REQUEST",
        DataType::SscpLuData => "SSCP-LU-DATA",
        DataType::PrintEoj => "PRINT-EOJ",
    }
}

fn push_header(out: &mut String, header: &Option<Header>) -> Result<(), AllocError>
    ensures { OnOk result
        (string_bytes out.new ≡ string_bytes out.old ++ header_words header.now) }
{
    match header {
        None => Ok(()),
        Some(header) => {
            let name = type_name(header.data_type);
            let response = header.response;
            let seq = header.seq;
            write!(out, ": {name}, response {response}, sequence {seq}")
        }
    }
}

fn push_number(out: &mut String, count: u64, kept: &Kept<'_>) -> Result<(), AllocError>
    ensures { OnOk result (string_bytes out.new ≡ string_bytes out.old
        ++ number_words count (kept_seen kept.now)) }
{
    if is_line(kept) {
        write!(out, "record {count}")
    } else {
        out.push_str("record")
    }
}

fn push_comment(out: &mut String, count: u64, line: u64, kept: &Kept<'_>) -> Result<(), AllocError>
    ensures { OnOk result (string_bytes out.new ≡ string_bytes out.old
        ++ comment_text count line (kept_seen kept.now)) }
{
    out.push_str("# ")?;
    push_number(out, count, kept)?;
    write!(out, " at line {line}")?;
    push_header(out, &kept.header)?;
    out.push_str("\n")
}

fn push_line(out: &mut String, kept: &Kept<'_>) -> Result<(), AllocError>
    ensures { OnOk result (string_bytes out.new ≡ string_bytes out.old
        ++ bytes_text (kept_seen kept.now)) }
{
    if !is_line(kept) {
        return Ok(());
    }
    push_bytes(out, kept.body)?;
    out.push_str("\n")
}

/// A record that ends in the line of a number, after so many that were printed as lines.
pub(crate) fn push_record(
    out: &mut String,
    count: u64,
    line: u64,
    kept: &Kept<'_>,
) -> Result<(), AllocError>
    ensures { OnOk result (string_bytes out.new ≡ string_bytes out.old
        ++ record_text count line (kept_seen kept.now)) }
{
    push_comment(out, count, line, kept)?;
    push_line(out, kept)
}

#[tactic(auto, unfolding(crate::specs::Text::fields_number))]
fn push_fields_number(out: &mut String, count: u64) -> Result<(), AllocError>
    ensures { OnOk result (string_bytes out.new ≡ string_bytes out.old ++ fields_number count) }
{
    write!(out, "# structured field {count}")
}

fn push_fields_head(
    out: &mut String,
    count: u64,
    line: u64,
    header: &Option<Header>,
) -> Result<(), AllocError>
    ensures { OnOk result (string_bytes out.new ≡ string_bytes out.old
        ++ fields_head count line header.now) }
{
    push_fields_number(out, count)?;
    write!(out, " at line {line}")?;
    push_header(out, header)?;
    out.push_str("\n")
}

#[tactic(auto, unfolding(crate::specs::Text::fields_word))]
fn push_fields_word(out: &mut String) -> Result<(), AllocError>
    ensures { OnOk result (string_bytes out.new ≡ string_bytes out.old ++ fields_word) }
{
    out.push_str("# structured field ")
}

fn push_fields_line(out: &mut String, body: &[u8]) -> Result<(), AllocError>
    ensures { OnOk result (string_bytes out.new ≡ string_bytes out.old ++ fields_line body.now) }
{
    push_fields_word(out)?;
    push_bytes(out, body)?;
    push_names(out, after_first(body))?;
    out.push_str("\n")
}

/// The comment of structured fields, after so many such records.
pub(crate) fn push_fields(
    out: &mut String,
    count: u64,
    line: u64,
    kept: &Kept<'_>,
) -> Result<(), AllocError>
    ensures { OnOk result (string_bytes out.new ≡ string_bytes out.old
        ++ fields_text count line (kept_seen kept.now)) }
{
    push_fields_head(out, count, line, &kept.header)?;
    push_fields_line(out, kept.body)
}

#[tactic(auto, unfolding(crate::specs::Text::plain_head))]
fn push_plain_head(out: &mut String, line: u64) -> Result<(), AllocError>
    ensures { OnOk result (string_bytes out.new ≡ string_bytes out.old ++ plain_head line) }
{
    write!(out, "# plain text at line {line}: ")
}

/// The text that came before a session, up to a command in the line of this number.
pub(crate) fn push_plain(out: &mut String, line: u64, bytes: &[u8]) -> Result<(), AllocError>
    ensures { OnOk result
        (string_bytes out.new ≡ string_bytes out.old ++ plain_text line bytes.now) }
{
    push_plain_head(out, line)?;
    push_bytes(out, bytes)?;
    out.push_str("\n")
}

/// That a new connection begins after a line.
pub(crate) fn push_connection(out: &mut String, line: u64) -> Result<(), AllocError>
    ensures { OnOk result (string_bytes out.new ≡ string_bytes out.old ++ connection_text line) }
{
    write!(out, "# connection at line {line}\n")
}

/// That so many bytes are open, unless none is.
pub(crate) fn push_open(out: &mut String, count: usize) -> Result<(), AllocError>
    ensures { OnOk result (string_bytes out.new ≡ string_bytes out.old ++ open_text count) }
{
    if count == 0 {
        return Ok(());
    }
    write!(out, "# {count} bytes of an open record\n")
}

/// That a line is refused.
pub(crate) fn push_refused(out: &mut String, line: u64) -> Result<(), AllocError>
    ensures { OnOk result (string_bytes out.new ≡ string_bytes out.old ++ refused_text line) }
{
    write!(out, "line {line} refused\n")
}

/// The name of a fault of the stream.
pub(crate) fn wire_name(fault: WireFault) -> &'static str
    ensures { result.now ≡ wire_name fault }
{
    match fault {
        WireFault::RecordTooLong => "W1 RecordTooLong",
        WireFault::SubTooLong => "W2 SubTooLong",
        WireFault::BadSub => "W3 BadSub",
    }
}

/// The name of a fault of a header.
pub(crate) fn header_name(fault: HeaderFault) -> &'static str
    ensures { result.now ≡ header_name fault }
{
    match fault {
        HeaderFault::ShortHeader => "H1 ShortHeader",
        HeaderFault::UnknownType => "H2 UnknownType",
    }
}

/// That a line has a fault of this name.
pub(crate) fn push_fault(out: &mut String, line: u64, name: &str) -> Result<(), AllocError>
    ensures { OnOk result
        (string_bytes out.new ≡ string_bytes out.old ++ fault_text line name.now) }
{
    write!(out, "line {line} fault {name}\n")
}
