//! The example of `accept_limit`.

use accept_limit::{AcceptLimit, Arrival};
use std::alloc::{AllocError, Global};

/// Whether a third connection of an address is accepted, half a second after the first two.
fn accepts_third(alloc: Global, address: u128) -> Result<bool, AllocError> {
    let mut limit = AcceptLimit::new(alloc, 2);
    limit.admit(Arrival { address, at: 0 })?;
    limit.admit(Arrival { address, at: 100 })?;
    limit.admit(Arrival { address, at: 500 })
}
