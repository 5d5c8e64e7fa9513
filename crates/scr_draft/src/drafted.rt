//! A field that a draft declares.

use ds_screen::FieldAt;
use std::marker::Model;

/// A field of the screen, with the name that a draft gives it.
#[derive(Drop)]
pub struct Drafted {
    pub name: String,
    pub field: FieldAt,
}

impl Model for Drafted {
    ghost use Rattle.std.specs.Prelude.{string_bytes};
    ghost use Rattle.scr_draft.specs.Drafted.{Named};

    ghost Value = { Named };

    ghost view = { λ d. record { name = string_bytes d.name; field = d.field } };
}
