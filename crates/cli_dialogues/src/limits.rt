//! What a terminal may do to the host of an application.

ghost use Rattle.std.specs.Prelude.{◌≡◌, map, sum_by};
ghost use Rattle.cli_hosts.specs.Limits.{counted, room_of};
ghost use Rattle.cli_dialogues.specs.Limits.{screen_room, greatest, limits_over};

use cli_hosts::record_room;
use session_hub::Limits;
use tn_dialogue::Screen;

/// The bytes that a terminal may send in a session.
const MOST_HEARD: u64 = 1_048_576;

/// The bytes that may wait to go out, beside the records of a screen.
const MOST_DUE: usize = 65_536;

/// The bytes of records on their way, at most.
fn room_of(records: &[Vec<u8>]) -> usize
    ensures { result ≡ counted (sum_by room_of (map (λ bytes. bytes.items) records.now)) }
{
    let mut room: usize = 0;
    let mut rest = records;
    while let [bytes, others @ ..] = rest {
        room = room.saturating_add(record_room(bytes.len()));
        rest = others;
    }
    room
}

/// The bytes of the records of a screen on their way, at most, for the screen whose are most.
fn longest(screens: &[Screen]) -> usize
    ensures { result ≡ counted (greatest (map screen_room screens.now)) }
{
    let mut longest: usize = 0;
    let mut rest = screens;
    while let [screen, others @ ..] = rest {
        longest = longest.max(room_of(screen.records.as_slice()));
        rest = others;
    }
    longest
}

/// What a terminal may do to a host of these screens, where for so long nothing need come: 1,048,576 bytes may come of it, and
/// 65,536 bytes may wait to go out to it, beside the longest screen's records on their way: twice their bytes, and 16 for each.
pub fn dialogue_limits(screens: &[Screen], patience: u64) -> Limits
    ensures { result ≡ limits_over patience screens.now }
{
    Limits {
        patience,
        most_heard: MOST_HEARD,
        most_due: MOST_DUE.saturating_add(longest(screens)),
    }
}
