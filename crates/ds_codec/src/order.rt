//! Orders, as they stand in a record (GA23-0059, "Orders").

ghost use Rattle.std.specs.Prelude.{◌≡◌};

use crate::attribute::Attr;
use crate::character::Char;

/// One order of a write, or a run of text. Text and the pairs of SFE and MF are lent from the record.
#[derive(Clone, Copy, Debug, PartialEq, Eq)]
pub enum Order<'a> {
    /// A run of text bytes, as long as it can be.
    Text(&'a [u8]),
    /// Start Field.
    Sf(Attr),
    /// Start Field Extended: pairs of a type and a value.
    Sfe(&'a [u8]),
    /// Set Buffer Address.
    Sba(u32),
    /// Set Attribute: a type and a value.
    Sa(u8, u8),
    /// Modify Field: pairs of a type and a value.
    Mf(&'a [u8]),
    /// Insert Cursor.
    Ic,
    /// Program Tab.
    Pt,
    /// Repeat to Address: the stop address, and the character.
    Ra(u32, Char),
    /// Erase Unprotected to Address: the stop address.
    Eua(u32),
    /// Graphic Escape: a code of the alternate set.
    Ge(u8),
}

impl<'a> Order<'a> {
    ghost use Rattle.ds_codec.specs.Order.{item_of};
    ghost use Rattle.ds_codec.specs.Surely.{IsNeedOf};

    /// How many positions a buffer must have for the order to be done whatever it holds: more than any has where its
    /// number says nothing of that.
    #[inline(always)]
    pub(crate) fn need(&self) -> u64
        ensures { IsNeedOf result (item_of self.now) }
    {
        match self {
            Order::Sba(address) | Order::Ra(address, _) | Order::Eua(address) => {
                u64::from(*address) + 1
            }
            Order::Mf(_) => u64::MAX,
            Order::Text(_)
            | Order::Sf(_)
            | Order::Sfe(_)
            | Order::Sa(_, _)
            | Order::Ic
            | Order::Pt
            | Order::Ge(_) => 0,
        }
    }
}

/// An order, and where its first byte stands in the record, counted from 0.
#[derive(Clone, Copy, Debug, PartialEq, Eq)]
pub struct Placed<'a> {
    pub at: usize,
    pub order: Order<'a>,
}

/// What the first byte of an order can be, text aside.
#[derive(Clone, Copy, Debug, PartialEq, Eq)]
pub enum OrderCode {
    Sf,
    Sfe,
    Sba,
    Sa,
    Mf,
    Ic,
    Pt,
    Ra,
    Eua,
    Ge,
}

impl OrderCode {
    ghost use Rattle.ds_codec.specs.Order.{code_of, order_code_at};

    /// The first byte of the order.
    pub fn byte(self) -> u8
        ensures { result ≡ code_of self }
    {
        match self {
            OrderCode::Sf => 0x1D,
            OrderCode::Sfe => 0x29,
            OrderCode::Sba => 0x11,
            OrderCode::Sa => 0x28,
            OrderCode::Mf => 0x2C,
            OrderCode::Ic => 0x13,
            OrderCode::Pt => 0x05,
            OrderCode::Ra => 0x3C,
            OrderCode::Eua => 0x12,
            OrderCode::Ge => 0x08,
        }
    }

    /// The order of a code.
    #[inline(always)]
    #[tactic(auto, unfolding(crate::specs::Order::order_code_at))]
    pub fn from_byte(byte: u8) -> Option<OrderCode>
        ensures { result ≡ order_code_at byte }
    {
        match byte {
            0x1D => Some(OrderCode::Sf),
            0x29 => Some(OrderCode::Sfe),
            0x11 => Some(OrderCode::Sba),
            0x28 => Some(OrderCode::Sa),
            0x2C => Some(OrderCode::Mf),
            0x13 => Some(OrderCode::Ic),
            0x05 => Some(OrderCode::Pt),
            0x3C => Some(OrderCode::Ra),
            0x12 => Some(OrderCode::Eua),
            0x08 => Some(OrderCode::Ge),
            _ => None,
        }
    }
}
