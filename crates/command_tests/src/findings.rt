//! Each finding by itself: its name, as JSON and in a log, what to do, and its row of the table.

use crate::reports::{is_read_again, push_results};
use cli_findings::{
    Pen, finding_json, findings_log, form_of_finding, found_log, help_text, line_of_record,
    meaning_of_finding, mend_of_finding, name_of, rule_id_of,
};
use scr_check::{Demo, Finding, Origin, Overlong, Traced};
use scr_layout::Layout;
use std::alloc::AllocError;
use test_words::Row;

/// A layout of two rows of ten, with one entry.
const CODE: &str = "default = \"2x10\"\n[[field]]\nname = \"code\"\nrow = 1\ncol = 4\nlength = 3\n";

/// Two records, on the lines 1 and 3.
const RECORDS: &[u8] = b"F5C2\n# The second\n F1 C2\n";

/// The findings in the order of their numbers.
fn all_findings(layout: &Layout) -> [Finding; 14] {
    let size = layout.size();
    let refused = ds_terminal::Refused::Read(ds_codec::Refused {
        at: 2,
        why: ds_codec::Why::Truncated,
    });
    let demo = Demo {
        rights: 3,
        types: 1,
    };
    let found = Overlong {
        entry: 0,
        length: 5,
        declared: 3,
        demo: None,
    };
    [
        Finding::RecordRefused(0, refused),
        Finding::NoRecord,
        Finding::FirstNotErase,
        Finding::NotAWrite(1),
        Finding::KeyboardLocked,
        Finding::OtherSize(size, size),
        Finding::Unformatted,
        Finding::Undeclared(5, demo),
        Finding::UndeclaredFixed(5, demo),
        Finding::Missing(0),
        Finding::TooLong(found),
        Finding::OtherKind(0),
        Finding::EmptyModified(5),
        Finding::CursorDependent(1),
    ]
}

/// A text that was written, or none.
fn text_of(row: &mut Row, written: Result<String, AllocError>) -> String {
    row.take(written).unwrap_or(String::new(row.alloc()))
}

/// Whether a log of two results is another where it is written result by result.
fn push_made(row: &mut Row, layout: &Layout, traced: &Traced) {
    let alloc = row.alloc();
    let twice = [*traced, *traced];
    let path = "a b.hex";
    let log = text_of(
        row,
        findings_log(alloc, Pen::Asked, path, layout, RECORDS, &twice),
    );
    let made = text_of(
        row,
        found_log(alloc, Pen::Asked, "", path, layout, RECORDS, &twice),
    );
    row.word_if(made.as_str() != log.as_str(), "\nwritten as another");
}

/// A finding as JSON, and as a result of a log.
fn push_forms(row: &mut Row, layout: &Layout, traced: &Traced) {
    let alloc = row.alloc();
    let mut untried = None;
    let json = text_of(
        row,
        finding_json(alloc, layout, RECORDS, &mut untried, traced),
    );
    row.word("\n");
    row.word(json.as_str());
    let path = "a \\ \"b\".hex";
    let log = text_of(
        row,
        findings_log(alloc, Pen::Ignored, path, layout, RECORDS, &[*traced]),
    );
    push_results(row, log.as_str());
    push_made(row, layout, traced);
    let again = is_read_again(row, json.as_str()) && is_read_again(row, log.as_str());
    row.word_if(!again, "\nread as another");
}

/// A finding from these orders, of its attribute and of its field's end.
fn push_finding(
    row: &mut Row,
    layout: &Layout,
    finding: Finding,
    from: (Option<Origin>, Option<Origin>),
) {
    let (origin, end) = from;
    let traced = Traced {
        finding,
        origin,
        end,
    };
    push_forms(row, layout, &traced);
}

/// A finding as it comes from no order.
fn untraced(finding: Finding) -> Traced {
    Traced {
        finding,
        origin: None,
        end: None,
    }
}

/// A finding by its name, and what to do.
fn push_named(row: &mut Row, layout: &Layout, traced: &Traced) {
    row.word("\n");
    row.word(name_of(&traced.finding));
    row.word(": ");
    match row.take(help_text(row.alloc(), layout, traced)) {
        Some(Some(help)) => row.word(help.as_str()),
        _ => row.word("nothing"),
    }
}

fn read_code(row: &mut Row) -> Option<Layout> {
    row.take(Layout::from_text(row.alloc(), CODE))
}

/// Each finding by its name, what to do, and both forms, as it comes from no order.
fn push_all(row: &mut Row) {
    if let Some(layout) = read_code(row) {
        for finding in all_findings(&layout) {
            let traced = untraced(finding);
            push_named(row, &layout, &traced);
            push_forms(row, &layout, &traced);
        }
    }
}

/// A finding from orders of two records, from one order alone, and from one past the end of its record.
fn push_traced(row: &mut Row) {
    let early = Some(Origin { index: 0, at: 1 });
    let late = Some(Origin { index: 1, at: 0 });
    let beyond = Some(Origin { index: 1, at: 2 });
    if let Some(layout) = read_code(row) {
        for from in [(early, late), (late, late), (beyond, None)] {
            push_finding(row, &layout, Finding::EmptyModified(5), from);
        }
    }
}

/// A row of the table of findings: its number and name, what it means, how it is mended, and what is printed after its number.
fn push_table_row(row: &mut Row, finding: &Finding) {
    row.word("\n| `");
    row.word(rule_id_of(finding));
    row.word("` | `");
    row.word(name_of(finding));
    row.word("` | ");
    row.word(meaning_of_finding(finding));
    row.word(" | ");
    row.word(mend_of_finding(finding));
    row.word(" | `");
    row.word(form_of_finding(finding));
    row.word("` |");
}

/// The rows of the first table of docs/FINDINGS.md.
fn push_table(row: &mut Row) {
    if let Some(layout) = read_code(row) {
        for finding in all_findings(&layout) {
            push_table_row(row, &finding);
        }
        push_table_row(row, &Finding::Selectable(5));
    }
}

/// The lines of the records of a text.
fn push_lines(row: &mut Row) {
    let text = b"# A comment\n\nF5C2\r\n  # another\n   \n F1 C2\n";
    for index in 0..3 {
        match line_of_record(text, index) {
            Some(line) => {
                row.word_length("\nrecord ", index);
                row.word_length(" on line ", line);
            }
            None => row.word_length("\nno record ", index),
        }
    }
}

/// Adds what a verb of findings answers; whether it is one of these.
pub(crate) fn push_answer(row: &mut Row, verb: &str) -> bool {
    match verb {
        "all-findings" => push_all(row),
        "traced" => push_traced(row),
        "lines" => push_lines(row),
        "table" => push_table(row),
        _ => return false,
    }
    true
}
