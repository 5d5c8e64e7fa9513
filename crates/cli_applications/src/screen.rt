//! A screen of a manifest.

use crate::fault::ManifestKey;
use std::marker::Model;
use tn_dialogue::Lead;

/// A key, and the name of where it leads.
#[derive(Debug, Drop)]
pub(crate) struct Target {
    pub key: ManifestKey,
    pub to: String,
}

impl Model for Target {
    ghost use Rattle.std.specs.Prelude.{string_bytes};
    ghost use Rattle.cli_applications.specs.Manifest.{Target};

    ghost Value = { Target };

    ghost view = { λ t. record { key = t.key; to = string_bytes t.to } };
}

/// A screen whose keys lead to names.
#[derive(Debug, Drop)]
pub(crate) struct NamedScreen {
    pub name: String,
    pub records: String,
    pub layout: String,
    pub targets: Vec<Target>,
}

impl Model for NamedScreen {
    ghost use Rattle.std.specs.Prelude.{string_bytes};
    ghost use Rattle.cli_applications.specs.Manifest.{Named};

    ghost Value = { Named };

    ghost view = { λ s. record {
      name = string_bytes s.name;
      records = string_bytes s.records;
      layout = string_bytes s.layout;
      targets = s.targets.items;
    } };
}

/// A screen of an application.
#[derive(Debug, Drop)]
pub struct PlannedScreen {
    /// No other screen has it.
    pub name: String,
    /// The path of its records.
    pub records: String,
    /// The path of its layout.
    pub layout: String,
    /// Where its keys lead, at most one for each key.
    pub leads: Vec<Lead>,
}

impl Model for PlannedScreen {
    ghost use Rattle.std.specs.Prelude.{string_bytes};
    ghost use Rattle.cli_applications.specs.Manifest.{Planned};

    ghost Value = { Planned };

    ghost view = { λ s. record {
      name = string_bytes s.name;
      records = string_bytes s.records;
      layout = string_bytes s.layout;
      leads = s.leads.items;
    } };
}

/// The screens of an application, as its manifest says.
#[derive(Debug, Drop)]
pub struct Manifest {
    /// The index of the screen that is shown first.
    pub first: usize,
    /// The screens, in the order of the text.
    pub screens: Vec<PlannedScreen>,
}

impl Model for Manifest {
    ghost use Rattle.cli_applications.specs.Manifest.{Declared};

    ghost Value = { Declared };

    ghost view = { λ m. record { first = m.first; screens = m.screens.items } };
}
