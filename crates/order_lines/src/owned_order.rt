//! Orders that own their bytes.

use ds_codec::{Attr, Char, Order};

/// One order of a line. Unlike `ds_codec::Order` it owns its text or pairs, and these need not be ones
/// that can be written.
#[derive(Debug, Drop)]
pub enum OwnedOrder {
    Text(Vec<u8>),
    Sf(Attr),
    Sfe(Vec<u8>),
    Sba(u32),
    Sa(u8, u8),
    Mf(Vec<u8>),
    Ic,
    Pt,
    Ra(u32, Char),
    Eua(u32),
    Ge(u8),
}

impl OwnedOrder {
    ghost use Rattle.std.specs.Prelude.{◌≡◌};
    ghost use Rattle.ds_codec.specs.Order.{item_of};
    ghost use Rattle.order_lines.specs.Told.{item_held};

    /// The same order, its bytes lent.
    pub fn lend(&self) -> Order<'_>
        ensures { item_of result ≡ item_held self.now }
    {
        match self {
            OwnedOrder::Text(run) => Order::Text(run.as_slice()),
            OwnedOrder::Sf(attribute) => Order::Sf(*attribute),
            OwnedOrder::Sfe(pairs) => Order::Sfe(pairs.as_slice()),
            OwnedOrder::Sba(address) => Order::Sba(*address),
            OwnedOrder::Sa(kind, value) => Order::Sa(*kind, *value),
            OwnedOrder::Mf(pairs) => Order::Mf(pairs.as_slice()),
            OwnedOrder::Ic => Order::Ic,
            OwnedOrder::Pt => Order::Pt,
            OwnedOrder::Ra(address, character) => Order::Ra(*address, *character),
            OwnedOrder::Eua(address) => Order::Eua(*address),
            OwnedOrder::Ge(code) => Order::Ge(*code),
        }
    }
}
