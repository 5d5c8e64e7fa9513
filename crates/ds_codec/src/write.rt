//! Outbound records written (GA23-0059, "Commands" and "Orders").

ghost use Rattle.std.specs.Prelude.{◌≡◌, ◌++◌, ◌∷◌, ◌/◌, ◌≤◌, ◌<◌, length, true, None, IfOk, IfErr, OnOk, ℕ};
ghost use Rattle.ds_codec.specs.Geometry.{limit_of};
ghost use Rattle.ds_codec.specs.Order.{item_of, code_of, SpellsOrder};
ghost use Rattle.ds_codec.specs.Record.{is_text_order};
ghost use Rattle.ds_codec.specs.Writing.{items_of, is_good_run, are_good_pairs, flaw_of, flaw_unless, are_not_allowed, IsWritable, IsUnwritable, IsReadAgain, written_order, written_character, written_record, IsValidItem, AreValid, HaveNoFlaw, IsFlawHere, IsFlawAmong};
ghost use Rattle.std.specs.List.{flat_map, list_all};
ghost use Rattle.ds_codec.specs.Character.{is_text};
ghost use Rattle.ds_codec.specs.Address.{written_address};
ghost use Rattle.ds_codec.specs.Command.{command_code_of, wcc_of};
ghost use Rattle.ds_codec.specs.declared.write.Unwritable.TheVariants.{OutOfMemory};

use crate::address::{encode_address, to_six_bit_code};
use crate::character::{Char, is_graphic_code};
use crate::command::Command;
use crate::front::{have_field_types, is_set_type_byte, text_length};
use crate::order::{Order, OrderCode};
use crate::size::Mode;
use std::alloc::{AllocError, AllocFailed, Global};
use std::fmt;

/// Why a record cannot be written, with the least order at fault, counted from 0.
#[derive(Clone, Copy, Debug, PartialEq, Eq)]
pub enum Unwritable {
    /// U1: an address is not below the number of cells.
    AddressOutside(usize),
    /// U2: a text is empty, has a byte that is no text, or stands right after another.
    BadText(usize),
    /// U3: pairs are of odd length, more than 255, or of a type that is not known.
    BadPairs(usize),
    /// U4: the code of Graphic Escape does not exist.
    BadCode(usize),
    /// U5: there are orders for a command that takes none.
    NotAllowed,
    /// A request for memory was refused.
    OutOfMemory,
}

impl From<AllocError> for Unwritable {
    ghost from_gives = { λ _ e. e ≡ OutOfMemory };

    fn from(_e: AllocError) -> Unwritable {
        Unwritable::OutOfMemory
    }
}

impl<T: Drop> From<AllocFailed<T>> for Unwritable {
    ghost from_gives = { λ _ e. e ≡ OutOfMemory };

    fn from(_e: AllocFailed<T>) -> Unwritable {
        Unwritable::OutOfMemory
    }
}

/// Writes a record in its one written form: SNA's codes, addresses for a buffer of so many cells.
pub fn write_record(
    alloc: Global,
    command: Command,
    orders: &[Order<'_>],
    mode: Mode,
    cells: u32,
) -> Result<Vec<u8>, Unwritable>
    requires { cells ≤ limit_of mode }
    ensures written { IfOk result
        (λ bytes. bytes.items ≡ written_record mode cells command (items_of orders.now)) }
    ensures writable { OnOk result (IsWritable cells command (items_of orders.now)) }
    ensures again { IfOk result
        (λ bytes. IsReadAgain mode command (items_of orders.now) bytes.items) }
    ensures unwritable { IfErr result (λ e. IsUnwritable cells command (items_of orders.now) e) }
{
    write_all(alloc, command, orders, mode, cells)
}

fn write_all(
    alloc: Global,
    command: Command,
    orders: &[Order<'_>],
    mode: Mode,
    cells: u32,
) -> Result<Vec<u8>, Unwritable>
    requires { cells ≤ limit_of mode }
    ensures written { IfOk result
        (λ bytes. bytes.items ≡ written_record mode cells command (items_of orders.now)) }
    ensures writable { OnOk result (IsWritable cells command (items_of orders.now)) }
    ensures valid { OnOk result (AreValid (items_of orders.now)) }
    ensures unwritable { IfErr result (λ e. IsUnwritable cells command (items_of orders.now) e) }
{
    let mut bytes = Vec::new(alloc);
    bytes.push(command.code().byte())?;
    match command.wcc() {
        None => {
            if !orders.is_empty() {
                return Err(Unwritable::NotAllowed);
            }
        }
        Some(wcc) => {
            bytes.push(wcc.byte())?;
            push_orders(&mut bytes, orders, mode, cells)?;
        }
    }
    Ok(bytes)
}

impl Unwritable {
    ghost use Rattle.ds_codec.specs.Writing.{flaw_words};

    /// The printed words, as `U1 AddressOutside`.
    pub fn words(self) -> &'static str
        ensures { result.now ≡ flaw_words self }
    {
        match self {
            Unwritable::AddressOutside(_) => "U1 AddressOutside",
            Unwritable::BadText(_) => "U2 BadText",
            Unwritable::BadPairs(_) => "U3 BadPairs",
            Unwritable::BadCode(_) => "U4 BadCode",
            Unwritable::NotAllowed => "U5 NotAllowed",
            Unwritable::OutOfMemory => "out of memory",
        }
    }
}

impl fmt::Display for Unwritable {
    ghost use Rattle.std.specs.Prelude.{Some};
    ghost use Rattle.ds_codec.specs.Writing.{flaw_words};

    ghost output = { λ flaw. Some (flaw_words flaw) };

    fn fmt<W: fmt::Write>(&self, f: &mut fmt::Formatter<W>) -> fmt::Result {
        f.write_str(self.words())
    }
}

impl std::error::Error for Unwritable {}

/// Whether a run of text can be written here.
fn is_good_text(after_text: bool, run: &[u8]) -> bool
    ensures { result ≡ is_good_run after_text run.now }
{
    !after_text && !run.is_empty() && is_all_text(run)
}

fn is_all_text(run: &[u8]) -> bool
    ensures { result ≡ list_all is_text run.now }
{
    text_length(run) == run.len()
}

/// Whether pairs can be written: at most 255 whole ones, of known types.
fn is_good_list(pairs: &[u8]) -> bool
    ensures { result ≡ are_good_pairs pairs.now }
{
    pairs.len() % 2 == 0 && pairs.len() <= 510 && have_field_types(pairs)
}

/// No flaw, or this one.
fn unless(good: bool, flaw: Unwritable) -> Option<Unwritable>
    ensures { result ≡ flaw_unless good flaw }
{
    if good { None } else { Some(flaw) }
}

/// What is wrong with the `k`-th order, for a buffer of so many cells.
fn flaw(cells: u32, after_text: bool, order: &Order<'_>, k: usize) -> Option<Unwritable>
    ensures { result ≡ flaw_of cells after_text (item_of order.now) k }
{
    match order {
        Order::Text(run) => unless(is_good_text(after_text, run), Unwritable::BadText(k)),
        Order::Sf(_) | Order::Ic | Order::Pt => None,
        Order::Sfe(pairs) | Order::Mf(pairs) => unless(
            is_good_list(pairs),
            Unwritable::BadPairs(k),
        ),
        Order::Sa(kind, _) => unless(is_set_type_byte(*kind), Unwritable::BadPairs(k)),
        Order::Sba(address) | Order::Ra(address, _) | Order::Eua(address) => {
            unless(*address < cells, Unwritable::AddressOutside(k))
        }
        Order::Ge(code) => unless(is_graphic_code(*code), Unwritable::BadCode(k)),
    }
}

/// An order that consists of a count of pairs, and the pairs.
fn push_pairs(out: &mut Vec<u8>, code: OrderCode, pairs: &[u8]) -> Result<(), AllocError>
    requires { are_good_pairs pairs.now ≡ true }
    ensures { OnOk result (out.new.items
        ≡ out.old.items ++ code_of code ∷ (length pairs.now / 2) ∷ pairs.now) }
{
    out.push(code.byte())?;
    out.push((pairs.len() / 2) as u8)?;
    out.extend_from_slice(pairs)
}

/// An order that begins with an address.
fn push_address(
    out: &mut Vec<u8>,
    code: OrderCode,
    mode: Mode,
    cells: u32,
    address: u32,
) -> Result<(), AllocError>
    requires inside { address < cells }
    requires few { cells ≤ limit_of mode }
    ensures { OnOk result (out.new.items
        ≡ out.old.items ++ code_of code ∷ written_address mode cells address) }
{
    out.push(code.byte())?;
    out.extend_from_slice(&encode_address(mode, cells, address))
}

/// Adds a character as it is written: its code, after the graphic escape where it is of the alternate set
/// (GA23-0059, "Graphic Escape").
pub fn push_character(out: &mut Vec<u8>, character: Char) -> Result<(), AllocError>
    ensures { OnOk result (out.new.items ≡ out.old.items ++ written_character character) }
{
    if character.alt() {
        out.push(OrderCode::Ge.byte())?;
    }
    out.push(character.code())?;
    Ok(())
}

/// An order that has no flaw.
fn push_good(
    out: &mut Vec<u8>,
    order: &Order<'_>,
    after_text: bool,
    k: usize,
    mode: Mode,
    cells: u32,
) -> Result<(), AllocError>
    requires few { cells ≤ limit_of mode }
    requires good { flaw_of cells after_text (item_of order.now) k ≡ None }
    ensures { OnOk result (out.new.items
        ≡ out.old.items ++ written_order mode cells (item_of order.now)) }
{
    match order {
        Order::Text(run) => out.extend_from_slice(run),
        Order::Sf(attribute) => out.extend_from_slice(&[
            OrderCode::Sf.byte(),
            to_six_bit_code(attribute.bits()),
        ]),
        Order::Sfe(pairs) => push_pairs(out, OrderCode::Sfe, pairs),
        Order::Sba(address) => push_address(out, OrderCode::Sba, mode, cells, *address),
        Order::Sa(kind, value) => out.extend_from_slice(&[OrderCode::Sa.byte(), *kind, *value]),
        Order::Mf(pairs) => push_pairs(out, OrderCode::Mf, pairs),
        Order::Ic => out.extend_from_slice(&[OrderCode::Ic.byte()]),
        Order::Pt => out.extend_from_slice(&[OrderCode::Pt.byte()]),
        Order::Ra(address, character) => {
            push_address(out, OrderCode::Ra, mode, cells, *address)?;
            push_character(out, *character)
        }
        Order::Eua(address) => push_address(out, OrderCode::Eua, mode, cells, *address),
        Order::Ge(code) => out.extend_from_slice(&[OrderCode::Ge.byte(), *code]),
    }
}

/// What the types of an attribute and of a character say of an order.
fn is_valid(order: &Order<'_>)
    ensures { IsValidItem (item_of order.now) }
{
    match order {
        Order::Sf(attribute) => {
            let _bits = attribute.bits();
        }
        Order::Ra(_, character) => {
            let _code = character.code();
        }
        _ => {}
    }
}

/// Adds an order as it is written, unless it has a flaw, its address for a buffer of so many cells; and tells whether it is
/// text, for the order after it. `k` is its number in its record, counted from 0.
///
/// # Errors
///
/// Its flaw; out of memory.
pub fn push_order(
    out: &mut Vec<u8>,
    order: &Order<'_>,
    after_text: bool,
    k: usize,
    mode: Mode,
    cells: u32,
) -> Result<bool, Unwritable>
    requires { cells ≤ limit_of mode }
    ensures bytes { OnOk result
        (out.new.items ≡ out.old.items ++ written_order mode cells (item_of order.now)) }
    ensures good { OnOk result (flaw_of cells after_text (item_of order.now) k ≡ None) }
    ensures valid { OnOk result (IsValidItem (item_of order.now)) }
    ensures text { IfOk result (λ is_text. is_text ≡ is_text_order (item_of order.now)) }
    ensures flaw { IfErr result
        (λ e. IsFlawHere (flaw_of cells after_text (item_of order.now) k) e) }
{
    if let Some(flaw) = flaw(cells, after_text, order, k) {
        return Err(flaw);
    }
    push_good(out, order, after_text, k, mode, cells)?;
    is_valid(order);
    Ok(is_text_order(order))
}

/// Whether an order is a run of text.
fn is_text_order(order: &Order<'_>) -> bool
    ensures { result ≡ is_text_order (item_of order.now) }
{
    matches!(order, Order::Text(_))
}

/// All orders, up to the first that has a flaw.
fn push_orders(
    out: &mut Vec<u8>,
    orders: &[Order<'_>],
    mode: Mode,
    cells: u32,
) -> Result<(), Unwritable>
    requires { cells ≤ limit_of mode }
    ensures bytes { OnOk result
        (out.new.items ≡ out.old.items ++ flat_map (written_order mode cells)
        (items_of orders.now)) }
    ensures good { OnOk result (HaveNoFlaw cells (items_of orders.now)) }
    ensures valid { OnOk result (AreValid (items_of orders.now)) }
    ensures flaw { IfErr result (λ e. IsFlawAmong cells (items_of orders.now) e) }
{
    let mut after_text = false;
    for (k, order) in orders.iter().enumerate() {
        after_text = push_order(out, order, after_text, k, mode, cells)?;
    }
    Ok(())
}
