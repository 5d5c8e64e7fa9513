//! Each screen judged at the key that sends, by the layout that it matches.

ghost use Rattle.std.specs.Prelude.{◌≡◌, ◌++◌, map, option_map, IfOk, OnOk};
ghost use Rattle.std.specs.List.{list_any};
ghost use Rattle.tn_session.specs.KeptView.{kept_view};
ghost use Rattle.script_checks.specs.KnownView.{known_view, turns_seen};
ghost use Rattle.script_checks.specs.Report.{is_no, are_both, is_same, are_same, is_known, room_after, next_number};

use crate::form::{
    ReportFormat, Totals, counted_in, no_totals, push_at_once, push_end, push_later_due,
};
use crate::layouts::Layouts;
use crate::told::{Told, Verdict, told_of};
use ds_screen::{PlaneCells, Screen};
use std::alloc::{AllocError, Global};
use std::marker::Model;
use tn_session::KeptRecord;

/// The most screens that are known again.
const MOST_SCREENS: usize = 1_000;

/// The most bytes of their records.
const MOST_BYTES: usize = 8_388_608;

/// Judges the screens of a session, each once.
#[derive(Drop)]
pub struct Judge {
    layouts: Layouts,
    known: Vec<Vec<KeptRecord>>,
    room: usize,
    screens: u64,
    has_findings: bool,
    format: ReportFormat,
    totals: Totals,
    cases: Vec<u8>,
}

impl Model for Judge {
    ghost use Rattle.std.specs.Prelude.{map};
    ghost use Rattle.script_checks.specs.Report.{Judging};
    ghost use Rattle.script_checks.specs.KnownView.{known_view};

    ghost Value = { Judging };

    ghost view = { λ j. record {
      layouts = j.layouts;
      known = map known_view j.known.items;
      room = j.room;
      screens = j.screens;
      has_findings = j.has_findings;
      format = j.format;
      totals = j.totals;
      cases = j.cases.items;
    } };
}

fn is_no(verdict: Verdict) -> bool
    ensures { result ≡ is_no verdict }
{
    match verdict {
        Verdict::No => true,
        Verdict::NoLayout | Verdict::NotKept | Verdict::Yes => false,
    }
}

/// Whether both hold, or neither does.
fn are_both(one: bool, other: bool) -> bool
    ensures { result ≡ are_both one other }
{
    if one { other } else { !other }
}

/// Whether two records are the same, and begin a turn or not.
fn is_same(one: &KeptRecord, other: &KeptRecord) -> bool
    ensures { result ≡ is_same (kept_view one.now) (kept_view other.now) }
{
    are_both(one.begins_turn, other.begins_turn) && one.bytes.as_slice() == other.bytes.as_slice()
}

/// Whether the records and their turns are the same.
fn are_same(kept: &[KeptRecord], others: &[KeptRecord]) -> bool
    ensures { result ≡ are_same (map kept_view kept.now) (map kept_view others.now) }
{
    if kept.len() != others.len() {
        return false;
    }
    for index in 0..kept.len() {
        if !is_same(&kept[index], &others[index]) {
            return false;
        }
    }
    true
}

/// Whether these records are among those that are known.
fn are_known(known: &[Vec<KeptRecord>], kept: &[KeptRecord]) -> bool
    ensures { result ≡ list_any (λ others. are_same (map kept_view kept.now) (known_view others))
        known.now }
{
    known.iter().any(|others| are_same(kept, others))
}

/// Whether turns are among those that are known.
#[tactic(auto, using(crate::proofs::Lists::any_mapped))]
fn is_known(known: &[Vec<KeptRecord>], turns: Option<&[KeptRecord]>) -> bool
    ensures { result ≡ is_known (map known_view known.now) (turns_seen turns.entry) }
{
    match turns {
        Some(kept) => are_known(known, kept),
        None => false,
    }
}

/// The room that the bytes of records leave, if there is enough.
fn room_after(room: usize, kept: &[KeptRecord]) -> Option<usize>
    ensures { result ≡ room_after room (map kept_view kept.now) }
{
    let mut left = room;
    for record in kept {
        left = left.checked_sub(record.bytes.len())?;
    }
    Some(left)
}

/// The records again.
///
/// # Errors
///
/// Where a request for memory was refused.
pub fn records_copied(alloc: Global, kept: &[KeptRecord]) -> Result<Vec<KeptRecord>, AllocError>
    ensures { IfOk result (λ copy. known_view copy ≡ map kept_view kept.now) }
{
    let mut copy = Vec::new(alloc);
    for record in kept {
        copy.push(KeptRecord {
            begins_turn: record.begins_turn,
            bytes: record.bytes.as_slice().to_vec(alloc)?,
        })?;
    }
    Ok(copy)
}

fn next_number(number: u64) -> u64
    ensures { result ≡ next_number number }
{
    number.saturating_add(1)
}

impl Judge {
    ghost use Rattle.std.specs.Prelude.{◌≡◌, ◌++◌, map, option_map, IfOk, OnOk};
    ghost use Rattle.tn_session.specs.KeptView.{kept_view};
    ghost use Rattle.script_checks.specs.KnownView.{turns_seen};
    ghost use Rattle.script_checks.specs.Forms.{due_at_once, due_at_the_end};
    ghost use Rattle.script_checks.specs.Report.{Judging, nothing_judged, knowing, told_to, judging_after, report_due, next_number, room_for};
    ghost use Rattle.script_checks.specs.ToldView.{told_seen};

    /// No screen yet, and a report of this form.
    pub fn new(alloc: Global, layouts: Layouts, format: ReportFormat) -> Judge
        ensures { result ≡ nothing_judged layouts format }
    {
        Judge {
            layouts,
            known: Vec::new(alloc),
            room: MOST_BYTES,
            screens: 0,
            has_findings: false,
            format,
            totals: no_totals(),
            cases: Vec::new(alloc),
        }
    }

    /// Whether a screen had findings.
    pub fn has_findings(&self) -> bool
        ensures { result ≡ self.now.has_findings }
    {
        self.has_findings
    }

    /// Whether one more screen can be known again, and the room that it leaves.
    fn room_for(&self, kept: &[KeptRecord]) -> Option<usize>
        ensures { result ≡ room_for self.now (map kept_view kept.now) }
    {
        if self.known.len() < MOST_SCREENS {
            room_after(self.room, kept)
        } else {
            None
        }
    }

    /// Knows a screen again, where there is room.
    fn know(&mut self, alloc: Global, turns: Option<&[KeptRecord]>) -> Result<(), AllocError>
        ensures { OnOk result (self.new ≡ knowing self.old (turns_seen turns.entry)) }
    {
        let Some(kept) = turns else {
            return Ok(());
        };
        let Some(room) = self.room_for(kept) else {
            return Ok(());
        };
        self.known.push(records_copied(alloc, kept)?)?;
        self.room = room;
        Ok(())
    }

    /// Adds what is told of a screen to the report and to what is kept for its end, and counts it.
    fn tell(&mut self, alloc: Global, told: &Told, report: &mut Vec<u8>) -> Result<(), AllocError>
        ensures report { OnOk result (report.new.items ≡ report.old.items
            ++ due_at_once self.old.format (next_number self.old.screens) (told_seen told.now)) }
        ensures after { OnOk result (self.new ≡ told_to self.old (told_seen told.now)) }
    {
        self.screens = next_number(self.screens);
        push_at_once(alloc, self.format, report, self.screens, told)?;
        push_later_due(alloc, self.format, &mut self.cases, self.screens, told)?;
        self.totals = counted_in(self.totals, told);
        self.has_findings = self.has_findings || is_no(told.verdict);
        Ok(())
    }

    /// Judges a screen by the layout that it matches, and adds to the report what is said of it: in a text `screen 1 NAME yes`, `screen 1
    /// NAME no` and its findings, or `screen 1 none`. A layout matches where its screen has this one's size and a field begins at each of
    /// its entries; of several the one with the most entries is taken, then the first by name. The records that made the screen are judged
    /// as `Check` does. A screen whose records were judged before is left out: up to 1,000 of them, and 8,388,608 bytes, are known
    /// again.
    ///
    /// # Errors
    ///
    /// Where a request for memory was refused.
    pub fn judge(
        &mut self,
        alloc: Global,
        screen: &Screen<PlaneCells>,
        turns: Option<&[KeptRecord]>,
        report: &mut Vec<u8>,
    ) -> Result<(), AllocError>
        ensures report { OnOk result (report.new.items ≡ report.old.items
            ++ report_due self.old screen.now (turns_seen turns.entry)) }
        ensures after { OnOk result (self.new
            ≡ judging_after self.old screen.now (turns_seen turns.entry)) }
    {
        if is_known(&self.known, turns) {
            return Ok(());
        }
        let told = told_of(alloc, &self.layouts, screen, turns)?;
        self.tell(alloc, &told, report)?;
        self.know(alloc, turns)
    }

    /// Adds what is due at the end of the report: of JSON the totals, of JUnit all of it.
    ///
    /// # Errors
    ///
    /// Where a request for memory was refused.
    pub fn finish(&self, report: &mut Vec<u8>) -> Result<(), AllocError>
        ensures { OnOk result (report.new.items ≡ report.old.items
            ++ due_at_the_end self.now.format self.now.totals self.now.cases) }
    {
        push_end(self.format, report, self.totals, &self.cases)
    }
}
