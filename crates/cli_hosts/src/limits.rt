//! How far a terminal may go.

ghost use Rattle.std.specs.Prelude.{◌≡◌, ◌+◌, ◌*◌, map, sum_by};
ghost use Rattle.cli_hosts.specs.Limits.{counted, room_of, limits_for};

use session_hub::Limits;

/// The bytes that a terminal may send before its session is over, but for its RESPONSES.
const MOST_HEARD: u64 = 131_072;

/// The bytes of a RESPONSE, at most.
const OF_RESPONSE: u64 = 16;

/// The bytes that may wait to go out, beside the records.
const MOST_DUE: usize = 65_536;

/// The bytes of a record on its way beside its own, at most.
const OF_RECORD: usize = 16;

/// The bytes of a record of this length on its way, at most: each of its own may be sent twice (RFC 854, IAC), and 16 stand
/// beside them.
pub fn record_room(length: usize) -> usize
    ensures { result ≡ counted (2 * length + 16) }
{
    length.saturating_mul(2).saturating_add(OF_RECORD)
}

/// The same of records in all.
fn room_of(records: &[&[u8]]) -> usize
    ensures { result ≡ counted (sum_by room_of (map (λ bytes. bytes.now) records.now)) }
{
    let mut room: usize = 0;
    let mut rest = records;
    while let [bytes, others @ ..] = rest {
        room = room.saturating_add(record_room(bytes.len()));
        rest = others;
    }
    room
}

/// What a terminal may do to a host that sends these records, where for so long nothing need come: 131,072 bytes may come of it,
/// and 16 more for each record; and 65,536 bytes may wait to go out to it, beside the records on their way: twice their bytes,
/// and 16 for each.
pub fn host_limits(records: &[&[u8]], patience: u64) -> Limits
    ensures { result ≡ limits_for patience (map (λ bytes. bytes.now) records.now) }
{
    let responses = (records.len() as u64).saturating_mul(OF_RESPONSE);
    Limits {
        patience,
        most_heard: MOST_HEARD.saturating_add(responses),
        most_due: MOST_DUE.saturating_add(room_of(records)),
    }
}
