//! Orders, one after the other (GA23-0059, "Orders").

ghost use Rattle.std.specs.Prelude.{◌≡◌, ◌<◌, ◌≤◌, true, false, length, IfOk, IfErr, OnOk, IfSome, Some, None};
ghost use Rattle.ds_codec.specs.declared.cell.Cell.{Cell};
ghost use Rattle.ds_codec.specs.Order.{item_of, text, set_buffer_address, modify_field, repeat_to_address, erase_unprotected_to_address};
ghost use Rattle.ds_screen.specs.Orders.{OrderActs, fault_of, outside_of, after_storing};
ghost use Rattle.ds_screen.specs.State.{writing, HasCharacters};
ghost use Rattle.ds_screen.specs.Surface.{Makes, Tells, IsOn};

use crate::refused::Why;
use crate::ring::next;
use crate::state::State;
use crate::surface::Surface;
use crate::tab::program_tab;
use ds_codec::{Attr, Cell, Char, Order, last_attr};

/// An address, if it is that of a position.
#[inline(always)]
fn position(n: u32, address: u32) -> Result<u32, Why>
    ensures inside { IfOk result (λ p. (p ≡ address) × (p < n) × (outside_of n address ≡ None)) }
    ensures outside { IfErr result (λ why. outside_of n address ≡ Some why) }
{
    if address < n {
        Ok(address)
    } else {
        Err(Why::AddressOutside)
    }
}

/// Stores a cell at the buffer address, and goes on by one. A Program Tab that comes next nulls nothing.
#[inline(always)]
fn stored<S: Surface>(surface: &mut S, state: State, cell: Cell) -> State
    requires { state.address < S.size surface.old }
    ensures stores { Makes S.shows surface.old surface.new (λ cells later. writing later result
        ≡ after_storing (writing cells state) cell false) }
    ensures cursor { result.cursor ≡ state.cursor }
    ensures inside { result.address < S.size surface.old }
    ensures whole { S.size surface.new ≡ S.size surface.old }
    ensures room { S.room surface.new ≡ S.room surface.old }
{
    surface.store(state.address, cell);
    state.at(next(surface.positions(), state.address))
}

/// Stores a character as text is stored: a Program Tab that comes next nulls what it passes.
fn stored_as_text<S: Surface>(surface: &mut S, state: State, character: Char) -> State
    requires { state.address < S.size surface.old }
    ensures stores { Makes S.shows surface.old surface.new (λ cells later. writing later result
        ≡ after_storing (writing cells state) (Cell.Char character) true) }
    ensures cursor { result.cursor ≡ state.cursor }
    ensures inside { result.address < S.size surface.old }
    ensures whole { S.size surface.new ≡ S.size surface.old }
    ensures room { S.room surface.new ≡ S.room surface.old }
{
    surface.store(state.address, Cell::Char(character));
    State {
        cursor: state.cursor,
        address: next(surface.positions(), state.address),
        nulling: true,
    }
}

/// Stores text from the buffer address on, and goes on behind it.
#[inline(always)]
#[tactic(auto, unfolding(crate::specs::Orders::effect_of, crate::specs::Orders::fault_of))]
fn put_text<S: Surface>(surface: &mut S, state: State, run: &[u8]) -> State
    requires inside { IsOn (S.size surface.old) state }
    requires characters { HasCharacters (text run.now) }
    ensures acts { Makes S.shows surface.old surface.new
        (λ cells later. OrderActs (text run.now) (writing cells state) (writing later result)) }
    ensures inside { IsOn (S.size surface.old) result }
    ensures whole { S.size surface.new ≡ S.size surface.old }
    ensures room { S.room surface.new ≡ S.room surface.old }
{
    let address = surface.store_text(state.address, run);
    State {
        cursor: state.cursor,
        address,
        nulling: true,
    }
}

/// Changes the attribute at the buffer address, and goes on by one.
#[tactic(auto, unfolding(crate::specs::Orders::effect_of, crate::specs::Orders::fault_of))]
fn modify_field<S: Surface>(surface: &mut S, state: State, pairs: &[u8]) -> Result<State, Why>
    requires inside { IsOn (S.size surface.old) state }
    ensures acts { IfOk result (λ after. Makes S.shows surface.old surface.new
        (λ cells later. OrderActs (modify_field pairs.now) (writing cells state)
        (writing later after))) }
    ensures inside { IfOk result (IsOn (S.size surface.old)) }
    ensures refused { IfErr result (λ why. Tells S.shows surface.old
        (λ cells. fault_of (modify_field pairs.now) (writing cells state) ≡ Some why)) }
    ensures whole { OnOk result (S.size surface.new ≡ S.size surface.old) }
    ensures room { S.room surface.new ≡ S.room surface.old }
{
    let Some(before) = surface.attribute_at(state.address) else {
        return Err(Why::NoFieldHere);
    };
    let attribute = last_attr(pairs).unwrap_or(before);
    Ok(stored(surface, state, Cell::Field(attribute)))
}

/// Stores a character from the buffer address up to the stop, and goes on there.
#[tactic(auto, unfolding(crate::specs::Orders::effect_of, crate::specs::Orders::fault_of))]
fn repeat_to_address<S: Surface>(
    surface: &mut S,
    state: State,
    stop: u32,
    character: Char,
) -> Result<State, Why>
    requires inside { IsOn (S.size surface.old) state }
    ensures acts { IfOk result (λ after. Makes S.shows surface.old surface.new
        (λ cells later. OrderActs (repeat_to_address stop character) (writing cells state)
        (writing later after))) }
    ensures inside { IfOk result (IsOn (S.size surface.old)) }
    ensures refused { IfErr result (λ why. Tells S.shows surface.old
        (λ cells. fault_of (repeat_to_address stop character) (writing cells state) ≡ Some why)) }
    ensures whole { OnOk result (S.size surface.new ≡ S.size surface.old) }
    ensures room { S.room surface.new ≡ S.room surface.old }
{
    let address = position(surface.positions(), stop)?;
    surface.repeat(state.address, address, character);
    Ok(state.at(address))
}

/// Nulls the open characters from the buffer address up to the stop, and goes on there.
#[tactic(auto, unfolding(crate::specs::Orders::effect_of, crate::specs::Orders::fault_of))]
fn erase_unprotected_to_address<S: Surface>(
    surface: &mut S,
    state: State,
    stop: u32,
) -> Result<State, Why>
    requires inside { IsOn (S.size surface.old) state }
    ensures acts { IfOk result (λ after. Makes S.shows surface.old surface.new
        (λ cells later. OrderActs (erase_unprotected_to_address stop) (writing cells state)
        (writing later after))) }
    ensures inside { IfOk result (IsOn (S.size surface.old)) }
    ensures refused { IfErr result (λ why. Tells S.shows surface.old
        (λ cells. fault_of (erase_unprotected_to_address stop) (writing cells state) ≡ Some why)) }
    ensures whole { OnOk result (S.size surface.new ≡ S.size surface.old) }
    ensures room { S.room surface.new ≡ S.room surface.old }
{
    let address = position(surface.positions(), stop)?;
    surface.erase(state.address, address);
    Ok(state.at(address))
}

/// Goes on at an address.
#[inline(always)]
#[tactic(auto, unfolding(crate::specs::Orders::effect_of, crate::specs::Orders::fault_of))]
fn set_buffer_address<S: Surface>(surface: &S, state: State, address: u32) -> Result<State, Why>
    requires inside { IsOn (S.size surface.now) state }
    ensures acts { IfOk result (λ after. Tells S.shows surface.now
        (λ cells. OrderActs (set_buffer_address address) (writing cells state) (writing cells after))) }
    ensures inside { IfOk result (IsOn (S.size surface.now)) }
    ensures refused { IfErr result (λ why. Tells S.shows surface.now
        (λ cells. fault_of (set_buffer_address address) (writing cells state) ≡ Some why)) }
{
    Ok(state.at(position(surface.positions(), address)?))
}

/// Does one order.
#[inline(always)]
#[tactic(auto, unfolding(crate::specs::Orders::effect_of, crate::specs::Orders::fault_of))]
pub(crate) fn act<S: Surface>(
    surface: &mut S,
    state: State,
    order: &Order<'_>,
) -> Result<State, Why>
    requires inside { IsOn (S.size surface.old) state }
    requires characters { HasCharacters (item_of order.now) }
    ensures acts { IfOk result (λ after. Makes S.shows surface.old surface.new
        (λ cells later. OrderActs (item_of order.now) (writing cells state) (writing later after))) }
    ensures inside { IfOk result (IsOn (S.size surface.old)) }
    ensures refused { IfErr result (λ why. Tells S.shows surface.old
        (λ cells. fault_of (item_of order.now) (writing cells state) ≡ Some why)) }
    ensures whole { OnOk result (S.size surface.new ≡ S.size surface.old) }
    ensures room { S.room surface.new ≡ S.room surface.old }
{
    match order {
        Order::Text(run) => Ok(put_text(surface, state, run)),
        Order::Sf(attribute) => Ok(stored(surface, state, Cell::Field(*attribute))),
        Order::Sfe(pairs) => {
            let attribute = last_attr(pairs).unwrap_or(Attr::new(0));
            Ok(stored(surface, state, Cell::Field(attribute)))
        }
        Order::Sba(address) => set_buffer_address(surface, state, *address),
        Order::Sa(_, _) => Ok(state.at(state.address)),
        Order::Mf(pairs) => modify_field(surface, state, pairs),
        Order::Ic => Ok(State {
            cursor: state.address,
            address: state.address,
            nulling: false,
        }),
        Order::Pt => Ok(program_tab(surface, state)),
        Order::Ra(stop, character) => repeat_to_address(surface, state, *stop, *character),
        Order::Eua(stop) => erase_unprotected_to_address(surface, state, *stop),
        Order::Ge(code) => {
            let character = Char::new(*code, true).unwrap();
            Ok(stored_as_text(surface, state, character))
        }
    }
}
