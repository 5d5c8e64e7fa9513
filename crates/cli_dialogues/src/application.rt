//! An application: the screens that a terminal is led through.

use scr_layout::Layout;
use std::alloc::{AllocError, Global};
use std::marker::Model;
use tn_dialogue::{Next, Reading, Screen};

/// What is printed of an answer.
#[derive(Clone, Copy, Debug, PartialEq, Eq)]
pub enum Telling {
    /// What was read of it.
    Read,
    /// That, and its bytes.
    Bytes,
}

/// Screens, of which one is shown first, and what is printed of the answers to them.
#[derive(Drop)]
pub struct Application {
    /// The screens.
    pub screens: Vec<Screen>,
    /// The name of each, in the same order; empty where none is printed.
    pub names: Vec<String>,
    /// The index of the screen that is shown first.
    pub first: usize,
    /// What is printed of an answer.
    pub telling: Telling,
}

impl Model for Application {
    ghost use Rattle.std.specs.Prelude.{map, string_bytes};
    ghost use Rattle.cli_dialogues.specs.Applications.{Offered};

    ghost Value = { Offered };

    ghost view = { λ a. record {
      screens = a.screens.items;
      names = map string_bytes a.names.items;
      first = a.first;
      telling = a.telling;
    } };
}

impl Application {
    ghost use Rattle.std.specs.Prelude.{◌≡◌, [], ◌∷◌, IfOk};
    ghost use Rattle.cli_commands.specs.Held.{records_held};
    ghost use Rattle.cli_dialogues.specs.Applications.{IsOne};

    /// The application of one screen without a name, whose answer ends the session.
    ///
    /// # Errors
    ///
    /// Where a request for memory was refused.
    pub fn of_one(
        alloc: Global,
        layout: Layout,
        reading: Reading,
        records: Vec<Vec<u8>>,
        telling: Telling,
    ) -> Result<Application, AllocError>
        ensures { IfOk result (λ application. IsOne layout reading (records_held records.items)
            telling application) }
    {
        let mut screens = Vec::new(alloc);
        screens.push(Screen {
            layout,
            reading,
            records,
            leads: Vec::new(alloc),
            otherwise: Next::Ends,
        })?;
        Ok(Application {
            screens,
            names: Vec::new(alloc),
            first: 0,
            telling,
        })
    }
}
