//! How far a terminal may go, by paper and pencil.

use crate::{Limits, host_limits, record_room};
use std::test::Fail;

/// Two records: 131,072 bytes and 16 for each may come, and 65,536 may wait beside twice 3 and 16, and twice 10 and 16.
#[test]
fn two_records(rt: HostRuntime) -> Result<(), Fail> {
    let records: [&[u8]; 2] = [&[0xF5, 0xC2, 0x1D], &[0xF1; 10]];
    let limits = Limits {
        patience: 250,
        most_heard: 131_104,
        most_due: 65_594,
    };
    assert_eq!(rt; host_limits(&records, 250), limits);
    Ok(())
}

#[test]
fn no_record(rt: HostRuntime) -> Result<(), Fail> {
    let limits = Limits {
        patience: 0,
        most_heard: 131_072,
        most_due: 65_536,
    };
    assert_eq!(rt; host_limits(&[], 0), limits);
    Ok(())
}

/// A number of 64 bits counts no further.
#[test]
fn record_past_counting(rt: HostRuntime) -> Result<(), Fail> {
    assert_eq!(rt; record_room(0), 16);
    assert_eq!(rt; record_room(usize::MAX / 2), usize::MAX);
    assert_eq!(rt; record_room(usize::MAX), usize::MAX);
    Ok(())
}
