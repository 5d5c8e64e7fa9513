//! Query.

ghost use Rattle.std.specs.Prelude.{◌≡◌, ◌+◌, ◌++◌, ◌<◌, codes, map, length, OnOk, IfOk};
ghost use Rattle.std.specs.Fmt.{decimal};
ghost use Rattle.script_screens.specs.Lines.{data_line, data_lines, failed, Says};
ghost use Rattle.script_screens.specs.Status.{link_seen};
ghost use Rattle.script_screens.specs.Query.{device_seen, cursor_value, cursor1_value, protocol_value, state_value, formatted_value, host_value, lu_value, tls_value, size_value, long_size_value, item_value, named_value, item_text, query_name, item_said, said_of_query, listed_items};

use crate::cells::columns;
use crate::connection::{Connection, Device, Protocol};
use crate::item::{Item, LISTED, item_name, item_named};
use crate::lines::{Outcome, begin_line, end_line, push_decimal, push_fault};
use crate::status::is_formatted;
use ds_codec::Size;
use ds_screen::{PlaneCells, Screen};
use std::alloc::{AllocError, Global};

/// By which name Query is called.
#[derive(Clone, Copy, Debug, PartialEq, Eq)]
pub enum Query {
    Query,
    Show,
}

/// Adds a word and a number.
fn push_counted(out: &mut Vec<u8>, word: &[u8], number: u64) -> Result<(), AllocError>
    ensures { OnOk result (out.new.items ≡ out.old.items ++ (word.now ++ decimal number)) }
{
    out.extend_from_slice(word)?;
    push_decimal(out, number)
}

fn push_cursor(out: &mut Vec<u8>, screen: &Screen<PlaneCells>) -> Result<(), AllocError>
    ensures { OnOk result (out.new.items ≡ out.old.items ++ cursor_value screen.now) }
{
    let columns = u64::from(columns(screen));
    let cursor = u64::from(screen.cursor());
    push_decimal(out, cursor / columns)?;
    push_counted(out, b" ", cursor % columns)
}

fn push_cursor1(out: &mut Vec<u8>, screen: &Screen<PlaneCells>) -> Result<(), AllocError>
    ensures { OnOk result (out.new.items ≡ out.old.items ++ cursor1_value screen.now) }
{
    let columns = u64::from(columns(screen));
    let cursor = u64::from(screen.cursor());
    push_counted(out, b"row ", cursor / columns + 1)?;
    push_counted(out, b" column ", cursor % columns + 1)?;
    push_counted(out, b" offset ", cursor)
}

fn push_state(out: &mut Vec<u8>, connection: Option<Connection<'_>>) -> Result<(), AllocError>
    ensures { OnOk result (out.new.items
        ≡ out.old.items ++ state_value (link_seen connection.entry)) }
{
    let Some(connection) = connection else {
        return out.extend_from_slice(b"not-connected");
    };
    match connection.protocol {
        Protocol::Tn3270 => out.extend_from_slice(b"connected-3270"),
        Protocol::Tn3270e => out.extend_from_slice(b"connected-tn3270e"),
    }
}

fn push_formatted(out: &mut Vec<u8>, formatted: bool) -> Result<(), AllocError>
    ensures { OnOk result (out.new.items ≡ out.old.items ++ formatted_value formatted) }
{
    if formatted {
        out.extend_from_slice(b"formatted")
    } else {
        out.extend_from_slice(b"unformatted")
    }
}

fn push_host(out: &mut Vec<u8>, connection: Option<Connection<'_>>) -> Result<(), AllocError>
    ensures { OnOk result (out.new.items
        ≡ out.old.items ++ host_value (link_seen connection.entry)) }
{
    let Some(connection) = connection else {
        return Ok(());
    };
    out.extend_from_slice(b"host ")?;
    out.extend_from_slice(connection.host)?;
    push_counted(out, b" ", u64::from(connection.port))
}

fn push_lu_name(out: &mut Vec<u8>, connection: Option<Connection<'_>>) -> Result<(), AllocError>
    ensures { OnOk result (out.new.items
        ≡ out.old.items ++ lu_value (link_seen connection.entry)) }
{
    match connection {
        Some(connection) => out.extend_from_slice(connection.lu_name),
        None => Ok(()),
    }
}

fn push_tls(out: &mut Vec<u8>, connection: Option<Connection<'_>>) -> Result<(), AllocError>
    ensures { OnOk result (out.new.items
        ≡ out.old.items ++ tls_value (link_seen connection.entry)) }
{
    match connection {
        Some(_) => out.extend_from_slice(b"not secure"),
        None => Ok(()),
    }
}

fn push_size(out: &mut Vec<u8>, size: Size) -> Result<(), AllocError>
    ensures { OnOk result (out.new.items ≡ out.old.items ++ size_value size) }
{
    push_decimal(out, u64::from(size.rows))?;
    push_counted(out, b" ", u64::from(size.cols))
}

fn push_long_size(out: &mut Vec<u8>, size: Size) -> Result<(), AllocError>
    ensures { OnOk result (out.new.items ≡ out.old.items ++ long_size_value size) }
{
    push_counted(out, b"rows ", u64::from(size.rows))?;
    push_counted(out, b" columns ", u64::from(size.cols))
}

/// Adds the value of an item.
fn push_value(
    out: &mut Vec<u8>,
    screen: &Screen<PlaneCells>,
    connection: Option<Connection<'_>>,
    device: Device<'_>,
    item: Item,
) -> Result<(), AllocError>
    ensures { OnOk result (out.new.items ≡ out.old.items
        ++ item_value screen.now (link_seen connection.entry) (device_seen device.entry) item) }
{
    match item {
        Item::BindPluName => Ok(()),
        Item::ConnectionState => push_state(out, connection),
        Item::Cursor => push_cursor(out, screen),
        Item::Cursor1 => push_cursor1(out, screen),
        Item::Formatted => push_formatted(out, is_formatted(screen)),
        Item::Host => push_host(out, connection),
        Item::LocalEncoding => out.extend_from_slice(b"UTF-8"),
        Item::LuName => push_lu_name(out, connection),
        Item::Model | Item::TerminalName => out.extend_from_slice(device.name),
        Item::ScreenCurSize => push_size(out, screen.size()),
        Item::ScreenMaxSize => push_size(out, screen.geometry().alternate_size()),
        Item::ScreenSizeCurrent => push_long_size(out, screen.size()),
        Item::ScreenSizeMax => push_long_size(out, screen.geometry().alternate_size()),
        Item::Tls => push_tls(out, connection),
        Item::Version => out.extend_from_slice(device.version),
    }
}

/// Adds a name and a value.
fn push_named(out: &mut Vec<u8>, name: &[u8], value: &[u8]) -> Result<(), AllocError>
    ensures { OnOk result (out.new.items ≡ out.old.items ++ named_value name.now value.now) }
{
    out.extend_from_slice(name)?;
    if value.is_empty() {
        return out.extend_from_slice(b":");
    }
    out.extend_from_slice(b": ")?;
    out.extend_from_slice(value)
}

/// Adds the data line of an item with its name.
fn push_item(
    alloc: Global,
    out: &mut Vec<u8>,
    screen: &Screen<PlaneCells>,
    connection: Option<Connection<'_>>,
    device: Device<'_>,
    item: Item,
) -> Result<(), AllocError>
    ensures { OnOk result (out.new.items ≡ out.old.items
        ++ data_line (item_text screen.now (link_seen connection.entry) (device_seen device.entry) item)) }
{
    let mut value = Vec::new(alloc);
    push_value(&mut value, screen, connection, device, item)?;
    begin_line(out)?;
    push_named(out, item_name(item), &value)?;
    end_line(out)
}

/// Adds the data lines of items with their names.
fn push_items(
    alloc: Global,
    out: &mut Vec<u8>,
    screen: &Screen<PlaneCells>,
    connection: Option<Connection<'_>>,
    device: Device<'_>,
    items: &[Item],
) -> Result<(), AllocError>
    ensures { OnOk result (out.new.items ≡ out.old.items ++ data_lines
        (map (item_text screen.now (link_seen connection.entry) (device_seen device.entry)) items.now)) }
{
    for item in items {
        push_item(alloc, out, screen, connection, device, *item)?;
    }
    Ok(())
}

/// The name by which it is called.
fn query_name(query: Query) -> &'static [u8]
    ensures { result.now ≡ query_name query }
{
    match query {
        Query::Query => b"Query",
        Query::Show => b"Show",
    }
}

/// Adds the data line of the value of an item.
fn push_item_value(
    out: &mut Vec<u8>,
    screen: &Screen<PlaneCells>,
    connection: Option<Connection<'_>>,
    device: Device<'_>,
    item: Item,
) -> Result<(), AllocError>
    ensures { OnOk result (out.new.items ≡ out.old.items ++ data_line
        (item_value screen.now (link_seen connection.entry) (device_seen device.entry) item)) }
{
    begin_line(out)?;
    push_value(out, screen, connection, device, item)?;
    end_line(out)
}

/// Adds what is said of an item.
fn push_item_said(
    out: &mut Vec<u8>,
    screen: &Screen<PlaneCells>,
    connection: Option<Connection<'_>>,
    device: Device<'_>,
    query: Query,
    item: Option<Item>,
) -> Result<Outcome, AllocError>
    ensures { IfOk result (λ outcome. Says out.old.items out.new.items outcome
        (item_said screen.now (link_seen connection.entry) (device_seen device.entry) query item)) }
{
    match item {
        Some(item) => {
            push_item_value(out, screen, connection, device, item)?;
            Ok(Outcome::Done)
        }
        None => push_fault(out, query_name(query), b": Unknown parameter"),
    }
}

/// Adds the data lines of Query, as s3270 4.1 says them, and tells how it ends: of one word, in letters of either case, or without one of
/// twelve.
pub fn push_query(
    alloc: Global,
    out: &mut Vec<u8>,
    screen: &Screen<PlaneCells>,
    connection: Option<Connection<'_>>,
    device: Device<'_>,
    query: Query,
    arguments: &[Vec<u8>],
) -> Result<Outcome, AllocError>
    ensures { IfOk result (λ outcome. Says out.old.items out.new.items outcome
        (said_of_query screen.now (link_seen connection.entry) (device_seen device.entry) query
        (map (λ argument. argument.items) arguments.now))) }
{
    match arguments {
        [] => {
            push_items(alloc, out, screen, connection, device, &LISTED)?;
            Ok(Outcome::Done)
        }
        [word] => push_item_said(out, screen, connection, device, query, item_named(word)),
        _ => push_fault(out, query_name(query), b"() requires 0 or 1 arguments"),
    }
}
