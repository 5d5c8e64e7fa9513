//! A later turn of a dialogue: its records on the worst that the operator can have left.

ghost use Rattle.std.specs.Prelude.{◌≡◌, [], map, IfOk};
ghost use Rattle.scr_check.specs.Walk.{start_at_cursor, depends_on_cursor, without_keys};
ghost use Rattle.scr_check.specs.TalkSeen.{OpensLater, Judges};

use crate::fields::findings_of;
use crate::finding::{Demo, Finding, Overlong};
use crate::opening::{ready, writes};
use crate::taking::{TurnRule, take_all};
use ds_codec::{Command, Order, Record, Size};
use ds_screen::Outline;
use scr_layout::Layout;
use std::alloc::{AllocError, Global};

/// Whether the first order that isn't Set Attribute acts where the cursor stands.
fn start_at_cursor(outbound: &Record<'_>) -> bool
    ensures { result ≡ start_at_cursor outbound.now.orders }
{
    for placed in outbound.orders() {
        match placed.order {
            Order::Sa(_, _) => {}
            Order::Sba(_) => return false,
            _ => return true,
        }
    }
    false
}

/// Whether a record is a Write that begins where the operator left the cursor.
fn depends_on_cursor(outbound: &Record<'_>) -> bool
    ensures { result ≡ depends_on_cursor outbound.now.command outbound.now.orders }
{
    match outbound.command() {
        Command::Write(_) => start_at_cursor(outbound),
        _ => false,
    }
}

/// The rule of a later turn: each record writes, and none depends on the cursor.
enum LaterTurn {}

impl TurnRule for LaterTurn {
    ghost use Rattle.scr_check.specs.Walk.{later_fault};

    ghost fault_of = { later_fault };

    fn fault(index: usize, outbound: &Record<'_>) -> Option<Finding> {
        if !writes(&outbound.command()) {
            Some(Finding::NotAWrite(index))
        } else if depends_on_cursor(outbound) {
            Some(Finding::CursorDependent(index))
        } else {
            None
        }
    }
}

/// Takes the records of a later turn, and asks whether the operator can go on.
fn open_later(outline: &mut Outline, records: &[&[u8]], size: Size) -> Result<(), Finding>
    ensures opens { OpensLater outline.old outline.new
        (map (λ bytes. bytes.now) records.now) size result }
    ensures unchanged { records.now ≡ [] → outline.new ≡ outline.old }
{
    if records.is_empty() {
        return Err(Finding::NoRecord);
    }
    outline.worsen();
    if let Err(finding) = take_all::<LaterTurn>(outline, records) {
        return Err(finding);
    }
    ready(outline, size)
}

/// The finding without the keys that show it.
fn without_keys(finding: Finding) -> Finding
    ensures { result ≡ without_keys finding }
{
    let none = Demo {
        rights: 0,
        types: 0,
    };
    match finding {
        Finding::Undeclared(place, _) => Finding::Undeclared(place, none),
        Finding::UndeclaredFixed(place, _) => Finding::UndeclaredFixed(place, none),
        Finding::TooLong(found) => Finding::TooLong(Overlong {
            entry: found.entry,
            length: found.length,
            declared: found.declared,
            demo: match found.demo {
                Some(_) => Some(none),
                None => None,
            },
        }),
        other => other,
    }
}

/// The findings without keys.
fn all_without_keys(findings: &mut Vec<Finding>)
    ensures { findings.new.items ≡ map without_keys findings.old.items }
{
    'findings: for i in 0..findings.len() {
        findings[i] = without_keys(findings[i]);
    }
}

/// What stands against a later turn, by the outline of the picture that the turn before left.
pub(crate) fn later_findings(
    alloc: Global,
    outline: &mut Outline,
    records: &[&[u8]],
    layout: &Layout,
) -> Result<Vec<Finding>, AllocError>
    ensures judges { IfOk result (λ findings. Judges outline.old outline.new
        (map (λ bytes. bytes.now) records.now) layout.now findings.items) }
    ensures unchanged { records.now ≡ [] → outline.new ≡ outline.old }
{
    if let Err(finding) = open_later(outline, records, layout.size()) {
        return Ok(vec![in alloc; finding]?);
    }
    let mut findings = findings_of(alloc, outline, layout)?;
    all_without_keys(&mut findings);
    Ok(findings)
}
