//! What a record stores, position by position, each with the place of its order in the record.

ghost use Rattle.std.specs.Prelude.{◌≡◌, ◌<◌, ◌++◌, length, min, OnOk};
ghost use Rattle.ds_codec.specs.Order.{item_of, site_of};
ghost use Rattle.ds_screen.specs.State.{writing, HaveCharacters};
ghost use Rattle.ds_screen.specs.Records.{begun};
ghost use Rattle.ds_screen.specs.Surface.{Tells, IsOn};
ghost use Rattle.ds_screen.specs.Writes.{repeated_count, stored_count, piece, pieces, writes_at, order_writes};

use crate::orders::act;
use crate::records::Reset;
use crate::ring::distance;
use crate::state::State;
use crate::surface::Surface;
use ds_codec::{Order, Placed, Record, WriteControlCharacter};
use std::alloc::AllocError;

/// Positions into which an order of a record stores characters or an attribute: `count` of them from `place` on, never
/// round the end of the buffer.
#[derive(Clone, Copy, Debug, PartialEq, Eq)]
pub struct Write {
    /// The first of the positions, counted from 0.
    pub place: u32,
    /// How many there are, at least one.
    pub count: u32,
    /// The first byte of the order in its record, counted from 0.
    pub at: usize,
}

/// Into how many of `n` positions text is stored: once round at most.
fn text_count(n: u32, run: &[u8]) -> u32
    ensures { result ≡ min (length run.now) n }
{
    run.len().min(n as usize) as u32
}

/// How many positions there are from the buffer address up to the stop: once round where they are one.
fn repeated_count(n: u32, address: u32, stop: u32) -> u32
    requires { address < n }
    ensures { result ≡ repeated_count n address stop }
{
    if address == stop {
        n
    } else {
        distance(n, address, stop)
    }
}

/// Into how many of `n` positions an order stores, from the buffer address on.
fn stored_count(n: u32, address: u32, order: &Order<'_>) -> u32
    requires { address < n }
    ensures { result ≡ stored_count n address (item_of order.now) }
{
    match order {
        Order::Text(run) => text_count(n, run),
        Order::Sf(_) | Order::Sfe(_) | Order::Mf(_) | Order::Ge(_) => 1,
        Order::Ra(stop, _) => repeated_count(n, address, *stop),
        Order::Sba(_) | Order::Sa(_, _) | Order::Ic | Order::Pt | Order::Eua(_) => 0,
    }
}

/// Adds positions in a row, if there are any.
fn add_piece(writes: &mut Vec<Write>, place: u32, count: u32, at: usize) -> Result<(), AllocError>
    ensures { OnOk result (writes.new.items ≡ writes.old.items ++ piece place count at) }
{
    if count != 0 {
        writes.push(Write { place, count, at })?;
    }
    Ok(())
}

/// Adds positions on the ring, parted at the end of the buffer.
fn add_pieces(
    writes: &mut Vec<Write>,
    n: u32,
    address: u32,
    count: u32,
    at: usize,
) -> Result<(), AllocError>
    requires { address < n }
    ensures { OnOk result (writes.new.items ≡ writes.old.items ++ pieces n address count at) }
{
    let left = n - address;
    add_piece(writes, address, count.min(left), at)?;
    add_piece(writes, 0, count.saturating_sub(left), at)
}

/// Adds what an order writes at this buffer address of `n` positions.
fn add_write(
    writes: &mut Vec<Write>,
    n: u32,
    address: u32,
    placed: &Placed<'_>,
) -> Result<(), AllocError>
    requires { address < n }
    ensures { OnOk result (writes.new.items
        ≡ writes.old.items ++ writes_at (site_of placed.now) n address) }
{
    let count = stored_count(n, address, &placed.order);
    add_pieces(writes, n, address, count, placed.at)
}

/// Adds what the orders write in turn, up to the first that is at fault.
fn add_order_writes<S: Surface>(
    surface: &mut S,
    start: State,
    outbound: &Record<'_>,
    writes: &mut Vec<Write>,
) -> Result<(), AllocError>
    requires { IsOn (S.size surface.old) start }
    ensures added { OnOk result (Tells S.shows surface.old (λ cells. writes.new.items
        ≡ writes.old.items ++ order_writes outbound.now.orders (writing cells start))) }
    ensures characters { HaveCharacters outbound.now.orders }
    ensures room { S.room surface.new ≡ S.room surface.old }
{
    let n = surface.positions();
    let mut state = start;
    'orders: for placed in outbound.orders() {
        match act(surface, state, &placed.order) {
            Ok(after) => {
                add_write(writes, n, state.address, &placed)?;
                state = after;
            }
            Err(_) => return Ok(()),
        }
    }
    Ok(())
}

/// Adds what a write with this write control character writes, on what it begins with.
pub(crate) fn add_writes<S: Surface>(
    surface: &mut S,
    wcc: WriteControlCharacter,
    cursor: u32,
    outbound: &Record<'_>,
    writes: &mut Vec<Write>,
) -> Result<(), AllocError>
    requires { cursor < S.size surface.old }
    ensures added { OnOk result (Tells S.shows surface.old (λ cells. writes.new.items
        ≡ writes.old.items ++ order_writes outbound.now.orders (begun wcc cells cursor))) }
    ensures characters { HaveCharacters outbound.now.orders }
    ensures room { S.room surface.new ≡ S.room surface.old }
{
    if wcc.resets_modified_tags() {
        surface.reset_modified(Reset::Every);
    }
    let start = State {
        cursor,
        address: cursor,
        nulling: false,
    };
    add_order_writes(surface, start, outbound, writes)
}
