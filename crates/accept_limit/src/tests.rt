//! Connections of two addresses, by the second.

use crate::{AcceptLimit, Arrival};
use std::test::Fail;

/// Each row: an address, a time in milliseconds, and whether two a second are exceeded by it.
const ROWS: [(u128, u64, bool); 12] = [
    (1, 0, true),
    (1, 10, true),
    (1, 20, false),
    (2, 20, true),
    (1, 999, false),
    (1, 1_000, true),
    (1, 1_009, false),
    (1, 1_010, true),
    (1, 1_999, false),
    (2, 1_999, true),
    (2, 1_999, true),
    (2, 2_998, false),
];

#[test]
fn two_a_second(rt: HostRuntime) -> Result<(), Fail> {
    let mut limit = AcceptLimit::new(rt.alloc(), 2);
    for (address, at, is_accepted) in ROWS {
        let answer = limit.admit(Arrival { address, at })?;
        assert!(rt; answer == is_accepted, "{address} at {at}");
    }
    Ok(())
}

#[test]
fn many_addresses(rt: HostRuntime) -> Result<(), Fail> {
    let mut limit = AcceptLimit::new(rt.alloc(), 2);
    for number in 0..4_096_u32 {
        let address = u128::from(number);
        assert!(rt; limit.admit(Arrival { address, at: 5 })?, "{address}");
    }
    for (at, is_accepted) in [(5, false), (1_004, false), (1_005, true)] {
        let address = 5_000;
        assert!(rt;
            limit.admit(Arrival { address, at })? == is_accepted,
            "{at}"
        );
    }
    Ok(())
}

#[test]
fn laws_hold() {
    crate::window_law();
    crate::history_law();
    crate::room_law();
}
