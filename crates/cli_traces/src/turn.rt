//! The turns of a dialogue: an operator answers a screen by an attention key, and what the host
//! sends next begins the next turn.

ghost use Rattle.std.specs.Prelude.{◌≡◌};
ghost use Rattle.tn_session.specs.Kept.{begins_with};
ghost use Rattle.cli_traces.specs.Turns.{is_attention, begins, stage_after, turn_after, is_within, is_marked};

use tn_session::reads;
use tn_traces::Side;

/// How turns are printed.
#[derive(Clone, Copy, Debug, PartialEq, Eq)]
pub enum Turns {
    /// They are not.
    Unmarked,
    /// A line `turn` begins each but the first.
    Marked,
    /// Without such lines, the host's records up to this turn, counted from 0, or the terminal's
    /// in it.
    UpTo(u64),
}

/// Where a dialogue stands.
#[derive(Clone, Copy, Debug, PartialEq, Eq)]
pub enum Stage {
    /// The host sent no record yet.
    Blank,
    /// Its last record waits for the operator.
    Shown,
    /// Its last record reads: the terminal answers it by itself.
    Reads,
    /// The operator answered.
    Answered,
}

/// Whether an attention identifier tells of a key or a pen: no AID (60, E8), the answer to a
/// partition's read (61) and structured fields (88) tell of none (GA23-0059, "Attention identification").
fn is_attention(aid: u8) -> bool
    ensures { result ≡ is_attention aid }
{
    !(aid == 0x60 || aid == 0xE8 || aid == 0x61 || aid == 0x88)
}

/// Whether an answer tells of a key or a pen.
pub fn has_attention(body: &[u8]) -> bool
    ensures { result ≡ begins_with is_attention body.now }
{
    match body {
        [aid, ..] => is_attention(*aid),
        [] => false,
    }
}

/// Whether a record of this side begins a turn.
pub(crate) fn begins(side: Side, stage: Stage) -> bool
    ensures { result ≡ begins side stage }
{
    match (side, stage) {
        (Side::Host, Stage::Answered) => true,
        _ => false,
    }
}

/// Where a dialogue stands after a record of this side.
pub(crate) fn stage_after(side: Side, stage: Stage, body: &[u8]) -> Stage
    ensures { result ≡ stage_after side stage body.now }
{
    match (side, stage) {
        (Side::Host, _) if reads(body) => Stage::Reads,
        (Side::Host, _) => Stage::Shown,
        (Side::Terminal, Stage::Shown) if has_attention(body) => Stage::Answered,
        (Side::Terminal, Stage::Reads) => Stage::Shown,
        (Side::Terminal, other) => other,
    }
}

/// The turn after a record of this side.
pub(crate) fn turn_after(side: Side, stage: Stage, turn: u64) -> u64
    ensures { result ≡ turn_after side stage turn }
{
    if begins(side, stage) {
        turn.saturating_add(1)
    } else {
        turn
    }
}

impl Turns {
    /// Whether what a side sent in a turn is printed.
    pub(crate) fn is_within(self, side: Side, turn: u64) -> bool
        ensures { result ≡ is_within side self turn }
    {
        match (self, side) {
            (Turns::Unmarked | Turns::Marked, _) => true,
            (Turns::UpTo(last), Side::Host) => turn <= last,
            (Turns::UpTo(last), Side::Terminal) => turn == last,
        }
    }

    /// Whether a line begins each turn.
    pub(crate) fn is_marked(self) -> bool
        ensures { result ≡ is_marked self }
    {
        self == Turns::Marked
    }
}
