//! Structured fields (GA23-0059, "Structured fields").

ghost use Rattle.std.specs.Prelude.{◌≡◌, ◌++◌, ◌≤◌, ◌<◌, IfSome, OnOk, drop, length, take, true};
ghost use Rattle.hex.specs.Hex.{encode_upper};
ghost use Rattle.std.specs.Option.{option_map};
ghost use Rattle.std.specs.String.{string_bytes};
ghost use Rattle.cli_traces.specs.Fields.{identifier_of, identifier_word, given_len, is_whole, field_len, fields_in, fields_by, cut_field, drawn, after_outbound, content_name, field_name, long_name, names_after, names_of, or_identifier, plain_name, read_name};

use order_lines::push_bytes;
use std::alloc::AllocError;

/// The length that a field gives itself, where it has the two bytes of it.
#[tactic(auto, unfolding(crate::specs::Fields::given_len))]
fn given_len(bytes: &[u8]) -> usize
    ensures { result ≡ given_len bytes.now }
{
    match bytes {
        [high, low, ..] => usize::from(*high) * 256 + usize::from(*low),
        _ => 0,
    }
}

/// Whether the bytes begin with a field.
#[tactic(auto, unfolding(crate::specs::Fields::is_whole))]
fn is_whole(bytes: &[u8]) -> bool
    ensures value { result ≡ is_whole bytes.now }
    ensures enough { result ≡ true → 3 ≤ length bytes.now }
{
    let given = given_len(bytes);
    3 <= bytes.len() && (given == 0 || (3 <= given && given <= bytes.len()))
}

/// How many bytes the first field has; all, where it is the last, and where they begin with none.
#[tactic(auto, unfolding(crate::specs::Fields::field_len))]
fn field_len(bytes: &[u8]) -> usize
    ensures value { result ≡ field_len bytes.now }
    ensures within { result ≤ length bytes.now }
    ensures some { 0 < length bytes.now → 0 < result }
{
    let given = given_len(bytes);
    if 3 <= given && given <= bytes.len() {
        given
    } else {
        bytes.len()
    }
}

/// The first field, and what follows it.
#[tactic(auto, using(crate::proofs::FieldLaws::fields_cut))]
pub(crate) fn first_field(bytes: &[u8]) -> Option<(&[u8], &[u8])>
    ensures cut { option_map (λ parts. (parts.0.now, parts.1.now)) result ≡ cut_field bytes.now }
    ensures fields { fields_in bytes.now ≡ fields_by (cut_field bytes.now) }
    ensures shorter { IfSome result (λ parts. length parts.1.now < length bytes.now) }
{
    if bytes.is_empty() {
        return None;
    }
    Some(bytes.split_at(field_len(bytes)))
}

/// The record in the content of a field; none where there is no byte of it.
#[tactic(auto, unfolding(crate::specs::Fields::after_outbound))]
fn after_outbound(content: &[u8]) -> &[u8]
    ensures { result.now ≡ after_outbound content.now }
{
    match content {
        [0x40, 0, data @ ..] => data,
        _ => &[],
    }
}

/// The record in a field of an outbound 3270 data stream for partition 0; none where there is no
/// byte of it.
#[tactic(auto, unfolding(crate::specs::Fields::drawn))]
pub(crate) fn drawn(field: &[u8]) -> &[u8]
    ensures { result.now ≡ drawn field.now }
{
    if is_whole(field) {
        after_outbound(&field[2..])
    } else {
        &[]
    }
}

/// What Read Partition asks for.
#[tactic(auto, unfolding(crate::specs::Fields::read_name))]
fn read_name(rest: &[u8]) -> &'static str
    ensures { result.now ≡ read_name rest.now }
{
    match rest {
        [_partition, 0x02, ..] => "Read Partition Query",
        [_partition, 0x03, ..] => "Read Partition Query List",
        [_partition, 0x6E, ..] => "Read Partition Read Modified All",
        [_partition, 0xF2, ..] => "Read Partition Read Buffer",
        [_partition, 0xF6, ..] => "Read Partition Read Modified",
        _ => "Read Partition",
    }
}

/// An identifier of one byte.
#[tactic(auto, unfolding(crate::specs::Fields::plain_name))]
fn plain_name(identifier: u8) -> &'static str
    ensures { result.now ≡ plain_name identifier }
{
    match identifier {
        0x00 => "Reset Partition",
        0x03 => "Erase/Reset",
        0x06 => "Load Programmed Symbols",
        0x09 => "Set Reply Mode",
        0x0B => "Set Window Origin",
        0x0C => "Create Partition",
        0x0D => "Destroy Partition",
        0x0E => "Activate Partition",
        0x40 => "Outbound 3270DS",
        0x41 => "SCS Data",
        0x4A => "Select Format Group",
        0x4B => "Present Absolute Format",
        0x4C => "Present Relative Format",
        0x80 => "Inbound 3270DS",
        0x81 => "Query Reply",
        _ => "",
    }
}

/// The second byte of an identifier, of which the first is 0F.
#[tactic(auto, unfolding(crate::specs::Fields::long_name))]
fn long_name(rest: &[u8]) -> &'static str
    ensures { result.now ≡ long_name rest.now }
{
    let Some((second, _rest)) = rest.split_first() else {
        return "";
    };
    match *second {
        0x01 => "Set MSR Control",
        0x02 => "Destination/Origin",
        0x08 => "Set Partition Characteristics",
        0x0F => "Object Data",
        0x10 => "Object Picture",
        0x11 => "Object Control",
        0x21 => "Data Chain",
        0x24 => "Load Format Storage",
        _ => "",
    }
}

/// The name of what follows a field's length; empty where the chapter has none.
#[tactic(auto, unfolding(crate::specs::Fields::content_name))]
fn content_name(content: &[u8]) -> &'static str
    ensures { result.now ≡ content_name content.now }
{
    let Some((identifier, rest)) = content.split_first() else {
        return "";
    };
    match *identifier {
        0x01 => read_name(rest),
        0x0F => long_name(rest),
        other => plain_name(other),
    }
}

/// A front of so many bytes, or all where there are fewer.
fn front(bytes: &[u8], most: usize) -> &[u8]
    ensures { result.now ≡ take most bytes.now }
{
    if most < bytes.len() {
        &bytes[..most]
    } else {
        bytes
    }
}

/// The identifier that a field's content begins with.
#[tactic(auto, unfolding(crate::specs::Fields::identifier_of))]
fn identifier(content: &[u8]) -> &[u8]
    ensures { result.now ≡ identifier_of content.now }
{
    match content {
        [0x0F, ..] => front(content, 2),
        [_, ..] => front(content, 1),
        [] => content,
    }
}

#[tactic(auto, unfolding(crate::specs::Fields::identifier_word))]
fn push_identifier_word(out: &mut String) -> Result<(), AllocError>
    ensures { OnOk result (string_bytes out.new ≡ string_bytes out.old ++ identifier_word) }
{
    out.push_str("identifier ")
}

fn push_identifier(out: &mut String, content: &[u8]) -> Result<(), AllocError>
    ensures { OnOk result (string_bytes out.new ≡ string_bytes out.old
        ++ (identifier_word ++ encode_upper (identifier_of content.now))) }
{
    push_identifier_word(out)?;
    push_bytes(out, identifier(content))
}

/// A name, or the identifier where there is none.
#[tactic(auto, unfolding(crate::specs::Fields::or_identifier))]
fn push_or_identifier(out: &mut String, name: &str, content: &[u8]) -> Result<(), AllocError>
    ensures { OnOk result
        (string_bytes out.new ≡ string_bytes out.old ++ or_identifier content.now name.now) }
{
    if name.is_empty() {
        push_identifier(out, content)
    } else {
        out.push_str(name)
    }
}

/// The name of a field.
#[tactic(auto, unfolding(crate::specs::Fields::field_name))]
fn push_name(out: &mut String, field: &[u8]) -> Result<(), AllocError>
    ensures { OnOk result
        (string_bytes out.new ≡ string_bytes out.old ++ field_name field.now) }
{
    if is_whole(field) {
        push_or_identifier(out, content_name(&field[2..]), &field[2..])
    } else {
        out.push_str("no field")
    }
}

/// What follows the first byte.
pub(crate) fn after_first(body: &[u8]) -> &[u8]
    ensures { result.now ≡ drop 1 body.now }
{
    match body {
        [_first, rest @ ..] => rest,
        [] => body,
    }
}

/// The names of fields, with a comma before each.
fn push_names_after(out: &mut String, fields: &[u8]) -> Result<(), AllocError>
    ensures { OnOk result (string_bytes out.new ≡ string_bytes out.old
        ++ names_after (fields_in fields.now)) }
{
    let mut rest = fields;
    while let Some((field, others)) = first_field(rest) {
        out.push_str(", ")?;
        push_name(out, field)?;
        rest = others;
    }
    Ok(())
}

/// The names of fields, with a colon before them.
pub(crate) fn push_names(out: &mut String, fields: &[u8]) -> Result<(), AllocError>
    ensures { OnOk result (string_bytes out.new ≡ string_bytes out.old
        ++ names_of (fields_in fields.now)) }
{
    let Some((field, others)) = first_field(fields) else {
        return Ok(());
    };
    out.push_str(": ")?;
    push_name(out, field)?;
    push_names_after(out, others)
}
