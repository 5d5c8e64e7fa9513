//! The words of every refusal, every finding's text, and the laws.

use crate::findings::{push_keys, push_text};
use crate::script::layout_of;
use ds_codec::Size;
use scr_check::{BindError, BindFault, Demo, Finding, Overlong};
use scr_layout::{Layout, LayoutError, LayoutFault, LayoutKey, Why};
use test_words::Row;

/// Why an answer is not bound.
const UNBOUND: &[BindFault] = &[
    BindFault::NotDeclared,
    BindFault::Longer,
    BindFault::Twice,
    BindFault::Lead,
];

/// The keys of a layout.
const KEYS: &[LayoutKey] = &[
    LayoutKey::Unknown,
    LayoutKey::Version,
    LayoutKey::Addresses,
    LayoutKey::Default,
    LayoutKey::Alternate,
    LayoutKey::Screen,
    LayoutKey::Field,
    LayoutKey::Name,
    LayoutKey::Row,
    LayoutKey::Col,
    LayoutKey::Length,
    LayoutKey::Kind,
    LayoutKey::Count,
    LayoutKey::Down,
];

/// Why a text is no layout.
const REASONS: &[Why] = &[
    Why::NotToml,
    Why::MissingKey,
    Why::WrongKind,
    Why::UnknownKey,
    Why::BadSize,
    Why::BadName,
    Why::NameTwice,
    Why::PlaceOutside,
    Why::PlaceTwice,
    Why::BadLength,
    Why::TooManyFields,
    Why::BadCount,
];

/// A refusal of no key, at the top and in a field.
const REFUSED: &[LayoutFault] = &[
    LayoutFault {
        field: None,
        which: None,
        why: Why::NotToml,
    },
    LayoutFault {
        field: None,
        which: Some(LayoutKey::Screen),
        why: Why::WrongKind,
    },
    LayoutFault {
        field: Some(7),
        which: Some(LayoutKey::Row),
        why: Why::PlaceOutside,
    },
];

/// A layout of the entries `code` and `late`.
const TWO_ENTRIES: &str =
    "default = \"2x10\"\nfield = [{ name = \"code\", row = 1, col = 4, length = 3 }, { name = \"late\", row = 2, col = 1, length = 2 }]";

/// The findings that stand alone.
const OPENINGS: &[Finding] = &[
    Finding::RecordRefused(
        0,
        ds_terminal::Refused::Read(ds_codec::Refused {
            at: 2,
            why: ds_codec::Why::Truncated,
        }),
    ),
    Finding::RecordRefused(
        3,
        ds_terminal::Refused::Apply(ds_screen::Refused {
            at: 6,
            why: ds_screen::Why::NoFieldHere,
        }),
    ),
    Finding::NoRecord,
    Finding::FirstNotErase,
    Finding::NotAWrite(2),
    Finding::KeyboardLocked,
    Finding::OtherSize(Size { rows: 2, cols: 10 }, Size { rows: 3, cols: 12 }),
    Finding::Unformatted,
];

/// The others.
const FINDINGS: &[Finding] = &[
    Finding::Undeclared(
        18,
        Demo {
            rights: 3,
            types: 1,
        },
    ),
    Finding::UndeclaredFixed(
        1,
        Demo {
            rights: 0,
            types: 0,
        },
    ),
    Finding::Missing(1),
    Finding::TooLong(Overlong {
        entry: 0,
        length: 5,
        declared: 4,
        demo: Some(Demo {
            rights: 0,
            types: 5,
        }),
    }),
    Finding::TooLong(Overlong {
        entry: 1,
        length: 5,
        declared: 4,
        demo: None,
    }),
    Finding::OtherKind(0),
    Finding::EmptyModified(19),
    Finding::CursorDependent(2),
    Finding::Selectable(5),
];

fn push_binding(row: &mut Row) {
    for fault in UNBOUND {
        row.show(fault);
        row.word(", ");
        row.show(&BindError::Refused(*fault));
        row.word("; ");
    }
    row.show(&BindError::OutOfMemory);
}

fn push_layout_keys(row: &mut Row) {
    for key in KEYS {
        row.show(key);
        row.word(", ");
        row.word(key.word());
        row.word("; ");
    }
}

fn push_reasons(row: &mut Row) {
    for why in REASONS {
        row.show(why);
        row.word("; ");
    }
}

fn push_layouts(row: &mut Row) {
    for fault in REFUSED {
        row.show(fault);
        row.word(", ");
        row.show(&LayoutError::Refused(*fault));
        row.word("; ");
    }
    row.show(&LayoutError::OutOfMemory);
}

/// A finding's number, its text, and its keys.
fn push_finding(row: &mut Row, layout: &Layout, finding: Finding) {
    push_text(row, layout, finding);
    if let Some(demo) = finding.demo() {
        push_keys(row, demo);
        row.word(")");
    }
    row.word("; ");
}

fn push_all(row: &mut Row, layout: &Layout, findings: &[Finding]) {
    for finding in findings {
        push_finding(row, layout, *finding);
    }
}

/// Findings for the layout of two entries.
fn push_findings(row: &mut Row, findings: &[Finding]) {
    if let Some(layout) = layout_of(row, TWO_ENTRIES) {
        push_all(row, &layout, findings);
    }
}

/// Each law does nothing.
fn push_laws(row: &mut Row) {
    scr_check::bind_law();
    scr_check::yes_law();
    scr_check::pen_law();
    scr_draft::drafts_law();
    scr_draft::free_name_law();
    scr_draft::label_law();
    ds_keys::shape_law();
    order_lines::line_law();
    order_lines::record_law();
    order_lines::told_law();
    row.word("done");
}

/// Adds what a verb answers; whether it is one of these.
pub(crate) fn push_answer(row: &mut Row, verb: &str) -> bool {
    match verb {
        "binding" => push_binding(row),
        "keys" => push_layout_keys(row),
        "reasons" => push_reasons(row),
        "layouts" => push_layouts(row),
        "openings" => push_findings(row, OPENINGS),
        "findings" => push_findings(row, FINDINGS),
        "laws" => push_laws(row),
        _ => return false,
    }
    true
}
