//! Dialogues: turns judged one after the other.

use crate::Setup;
use crate::findings::{lent, push_findings, records_of};
use crate::script::{keep, layout_of};
use scr_check::{Finding, TalkVerdict, Turn, check_talk, have_one_geometry};
use scr_layout::Layout;
use test_words::Row;

/// What a turn is made of.
#[derive(Drop)]
pub(crate) struct Round {
    pub(crate) records: Vec<Vec<u8>>,
    pub(crate) layout: Layout,
}

/// Adds a round of a layout's text.
pub(crate) fn push_round(
    row: &mut Row,
    rounds: &mut Vec<Round>,
    text: &str,
    records: Vec<Vec<u8>>,
) {
    if let Some(layout) = layout_of(row, text) {
        keep(row, rounds, Round { records, layout });
    }
}

/// The setup's screens, each with its records, which are parted by bars.
fn rounds_of(row: &mut Row, setup: &Setup, words: &str) -> Vec<Round> {
    let mut rounds = Vec::new(row.alloc());
    let mut parts = words.split('|');
    for text in setup.screens.iter() {
        let records = records_of(row, parts.next().unwrap_or("").trim());
        push_round(row, &mut rounds, text.as_str(), records);
    }
    rounds
}

fn all_lent<'a>(row: &mut Row, rounds: &'a [Round]) -> Vec<Vec<&'a [u8]>> {
    let mut all = Vec::new(row.alloc());
    for round in rounds {
        let slices = lent(row, round.records.as_slice());
        keep(row, &mut all, slices);
    }
    all
}

/// Each round's records with its layout.
fn turns_of<'a, 'r>(
    row: &mut Row,
    rounds: &'a [Round],
    all: &'a [Vec<&'r [u8]>],
) -> Vec<Turn<'a, 'r>> {
    let mut turns = Vec::new(row.alloc());
    for (round, slices) in rounds.iter().zip(all) {
        let turn = Turn {
            records: slices.as_slice(),
            layout: &round.layout,
        };
        keep(row, &mut turns, turn);
    }
    turns
}

fn push_stop(row: &mut Row, rounds: &[Round], turn: usize, findings: &[Finding]) {
    row.word_length("turn ", turn);
    row.word(": ");
    match rounds.get(turn) {
        Some(round) => push_findings(row, &round.layout, findings),
        None => row.word("no such turn"),
    }
}

/// `yes`, or the first turn with findings, and these; of layouts of several geometries that they are.
fn push_verdict(row: &mut Row, rounds: &[Round], turns: &[Turn<'_, '_>]) {
    if !have_one_geometry(turns) {
        return row.word("several geometries");
    }
    match check_talk(row.alloc(), turns) {
        Ok(TalkVerdict::Yes) => row.word("yes"),
        Ok(TalkVerdict::No { turn, findings }) => {
            push_stop(row, rounds, turn, findings.as_slice());
        }
        Err(_) => row.spoil(),
    }
}

/// The same of rounds.
pub(crate) fn push_talk(row: &mut Row, rounds: &[Round]) {
    let all = all_lent(row, rounds);
    let turns = turns_of(row, rounds, all.as_slice());
    push_verdict(row, rounds, turns.as_slice());
}

/// Whether rounds have one geometry.
fn push_alike(row: &mut Row, rounds: &[Round]) {
    let all = all_lent(row, rounds);
    let turns = turns_of(row, rounds, all.as_slice());
    row.truth(have_one_geometry(turns.as_slice()));
}

/// Adds what a verb answers; whether it is one of these.
pub(crate) fn push_answer(row: &mut Row, setup: &Setup, verb: &str, words: &str) -> bool {
    if verb != "talk" && verb != "alike" {
        return false;
    }
    let rounds = rounds_of(row, setup, words);
    if verb == "talk" {
        push_talk(row, rounds.as_slice());
    } else {
        push_alike(row, rounds.as_slice());
    }
    true
}
