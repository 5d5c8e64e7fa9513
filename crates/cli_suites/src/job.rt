//! What a suite checks: a screen, a dialogue or a map, with its files.

use std::marker::Model;

/// How the files of a job are checked.
#[derive(Clone, Copy, Debug, PartialEq, Eq)]
pub enum Kind {
    /// Records against a layout, as `check` does.
    Screen,
    /// The turns of records, each against its layout, as `talk` does.
    Dialogue,
    /// The source of BMS maps, as `check --map` does.
    Map,
    /// Not at all: the file beside it is missing.
    Alone,
}

/// A screen of a suite, a dialogue or a source of maps.
#[derive(Debug, Drop)]
pub struct Job {
    pub kind: Kind,
    /// No other job of the suite has it.
    pub name: String,
    /// The path of the records, or of the source; where the job is alone, of the file that is there.
    pub records: String,
    /// The paths of the layouts: one of a screen, as many as turns of a dialogue, none of a map; where the job is alone, of the
    /// file that is missing.
    pub layouts: Vec<String>,
}

impl Model for Job {
    ghost use Rattle.std.specs.Prelude.{map, string_bytes};
    ghost use Rattle.cli_suites.specs.Job.{Asked};

    ghost Value = { Asked };

    ghost view = { λ j. record { kind = j.kind; name = string_bytes j.name; records = string_bytes j.records; layouts = map string_bytes j.layouts.items } };
}

/// A finding that is known, and isn't counted.
#[derive(Debug, Drop)]
pub struct Accepted {
    /// The name of the screen.
    pub screen: String,
    /// The line that `check` prints for it.
    pub finding: String,
    pub reason: String,
}

impl Model for Accepted {
    ghost use Rattle.std.specs.Prelude.{string_bytes};
    ghost use Rattle.cli_suites.specs.Job.{Known};

    ghost Value = { Known };

    ghost view = { λ a. record { screen = string_bytes a.screen; finding = string_bytes a.finding; reason = string_bytes a.reason } };
}
