//! The words of every refusal, and the laws.

use crate::words::push_last;
use test_words::Row;

/// Why a record is not applied.
const REFUSALS: &[ds_screen::Why] = &[
    ds_screen::Why::AddressOutside,
    ds_screen::Why::NoFieldHere,
    ds_screen::Why::NotAWrite,
];

/// Why an answer is not read.
const UNREAD: &[ds_inbound::Why] = &[
    ds_inbound::Why::Empty,
    ds_inbound::Why::UnknownAid,
    ds_inbound::Why::Truncated,
    ds_inbound::Why::BadAddress,
    ds_inbound::Why::BadCharacter,
    ds_inbound::Why::Null,
];

/// Why a terminal shows nothing: a record that is not read, and one that is not applied.
const UNSHOWN: &[ds_terminal::Refused] = &[
    ds_terminal::Refused::Read(ds_codec::Refused {
        at: 2,
        why: ds_codec::Why::Truncated,
    }),
    ds_terminal::Refused::Apply(ds_screen::Refused {
        at: 6,
        why: ds_screen::Why::NoFieldHere,
    }),
];

fn push_applying(row: &mut Row) {
    for why in REFUSALS {
        row.show(why);
        row.word(", ");
        row.show(&ds_screen::Refused { at: 7, why: *why });
        push_last(row, why.words());
    }
}

fn push_answers(row: &mut Row) {
    for why in UNREAD {
        row.show(why);
        row.word(", ");
        row.show(&ds_inbound::Refused { at: 7, why: *why });
        push_last(row, why.words());
    }
}

fn push_terminals(row: &mut Row) {
    let mut parting = "";
    for refused in UNSHOWN {
        row.word(parting);
        row.show(refused);
        parting = "; ";
    }
}

/// Each law does nothing.
fn push_laws(row: &mut Row) {
    ds_screen::one_effect();
    ds_screen::records_stay_sound();
    ds_screen::open_is_unprotected();
    ds_screen::each_write_has_an_effect();
    ds_screen::refused_at_the_least();
    ds_screen::nearest_attribute_governs();
    ds_screen::distance_is_least();
    ds_keys::keep_law();
    ds_keys::quiet_keep_law();
    ds_keys::touched_law();
    ds_keys::one_step();
    ds_keys::sound_law();
    ds_inbound::one_answer();
    ds_inbound::answers_say_themselves();
    row.word("done");
}

/// Adds what a verb answers; whether it is one of these.
pub(crate) fn push_answer(row: &mut Row, verb: &str) -> bool {
    match verb {
        "applying" => push_applying(row),
        "answers" => push_answers(row),
        "terminals" => push_terminals(row),
        "screen-laws" => push_laws(row),
        _ => return false,
    }
    true
}
