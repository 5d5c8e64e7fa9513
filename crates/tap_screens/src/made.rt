//! What is known of a session's screen, by the records that made it.

ghost use Rattle.std.specs.Prelude.{◌≡◌};
ghost use Rattle.cli_commands.specs.Sizes.{usual_sizes};
ghost use Rattle.tap_screens.specs.Made.{ends_turn, first_byte, stage_answered, stage_shown};

use cli_traces::has_attention;
use ds_codec::{Geometry, Mode, Size};
use std::alloc::{AllocError, Global};
use std::marker::Model;
use tn_session::{KeptRecord, KeptRecords, reads};

/// Where a dialogue stands.
#[derive(Clone, Copy, Debug, PartialEq, Eq)]
pub(crate) enum Stage {
    /// No screen waits for the operator.
    Idle,
    /// The host's last record waits for the operator.
    Shown,
    /// It reads: the terminal answers it by itself.
    Reads,
}

fn first_byte(bytes: &[u8]) -> Option<u8>
    ensures { result ≡ first_byte bytes.now }
{
    match bytes {
        [byte, ..] => Some(*byte),
        [] => None,
    }
}

fn stage_shown(bytes: &[u8]) -> Stage
    ensures { result ≡ stage_shown bytes.now }
{
    if reads(bytes) {
        Stage::Reads
    } else {
        Stage::Shown
    }
}

fn stage_answered(stage: Stage) -> Stage
    ensures { result ≡ stage_answered stage }
{
    match stage {
        Stage::Idle => Stage::Idle,
        Stage::Shown | Stage::Reads => Stage::Shown,
    }
}

/// Whether the terminal answers the screen by a key or a pen.
fn ends_turn(stage: Stage, bytes: &[u8]) -> bool
    ensures { result ≡ ends_turn stage bytes.now }
{
    match stage {
        Stage::Idle | Stage::Reads => false,
        Stage::Shown => has_attention(bytes),
    }
}

/// What is known of a session's screen: the terminal's sizes, the records that made it, and whether it waits for the operator.
#[derive(Drop)]
pub(crate) struct Making {
    geometry: Geometry,
    keeping: KeptRecords,
    stage: Stage,
}

impl Model for Making {
    ghost use Rattle.tap_screens.specs.Made.{Made};

    ghost Value = { Made };

    ghost view = { λ m. record { geometry = m.geometry; keeping = m.keeping; stage = m.stage } };
}

impl Making {
    ghost use Rattle.std.specs.Prelude.{◌≡◌, map, OnOk, option_map};
    ghost use Rattle.tn_session.specs.KeptView.{kept_view};
    ghost use Rattle.tap_screens.specs.Lines.{answers, shows, sizes};
    ghost use Rattle.tap_screens.specs.Made.{ends_turn, made_after, nothing_made, turns_of};

    /// Nothing yet, on a terminal of 24 rows of 80 columns.
    pub(crate) fn new(alloc: Global) -> Making
        ensures { result ≡ nothing_made }
    {
        Making {
            geometry: usual_geometry(),
            keeping: KeptRecords::new(alloc),
            stage: Stage::Idle,
        }
    }

    /// The terminal's sizes.
    pub(crate) fn geometry(&self) -> Geometry
        ensures { result ≡ self.now.geometry }
    {
        self.geometry
    }

    /// The records that made the screen, parted into turns; none where there were too many.
    pub(crate) fn turns(&self) -> Option<&[KeptRecord]>
        ensures { option_map (λ records. map kept_view records.now) result
            ≡ turns_of self.now.keeping }
    {
        self.keeping.records()
    }

    /// Whether an answer is one by which the operator ends a turn.
    pub(crate) fn ends_turn(&self, bytes: &[u8]) -> bool
        ensures { result ≡ ends_turn self.now.stage bytes.now }
    {
        ends_turn(self.stage, bytes)
    }

    /// Takes a record of the host's.
    pub(crate) fn take_record(&mut self, alloc: Global, bytes: &[u8]) -> Result<(), AllocError>
        ensures { OnOk result (self.new ≡ made_after self.old (shows bytes.now)) }
    {
        self.keeping.take_bytes(alloc, bytes)?;
        self.stage = stage_shown(bytes);
        Ok(())
    }

    /// Takes a record of the terminal's.
    pub(crate) fn take_answer(&mut self, alloc: Global, bytes: &[u8]) -> Result<(), AllocError>
        ensures { OnOk result (self.new ≡ made_after self.old (answers bytes.now)) }
    {
        if self.ends_turn(bytes) {
            self.keeping.take_attention(alloc, first_byte(bytes))?;
            self.stage = Stage::Idle;
        } else {
            self.stage = stage_answered(self.stage);
        }
        Ok(())
    }

    /// Takes the sizes of the terminal.
    pub(crate) fn take_sizes(&mut self, geometry: Geometry)
        ensures { self.new ≡ made_after self.old (sizes geometry) }
    {
        self.geometry = geometry;
    }
}

/// 24 rows of 80 columns, both sizes.
fn usual_geometry() -> Geometry
    ensures { result ≡ usual_sizes }
{
    let size = Size { rows: 24, cols: 80 };
    match Geometry::new(size, size, Mode::usual()) {
        Ok(geometry) => geometry,
        Err(_) => unreachable!(),
    }
}
