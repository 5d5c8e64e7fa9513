//! The fields of an outline, one after the other.

use crate::field::FieldAt;
use crate::mark::Mark;
use crate::marks::Marks;
use std::marker::Model;

/// The fields of an outline that are still to come, in rising order of their attributes. Takes no memory. The first
/// attribute from `from` on is known, so each field costs one search, for the attribute behind its own, and none where that
/// is the next one of its block.
#[derive(Drop)]
pub struct OutlineFields<'a> {
    marks: &'a Marks,
    from: u32,
    first: Option<Mark>,
    guess: usize,
}

impl<'a> Model for OutlineFields<'a> {
    ghost use Rattle.std.specs.Prelude.{List};
    ghost use Rattle.ds_screen.specs.declared.field.FieldAt.{FieldAt};
    ghost use Rattle.ds_screen.specs.Fields.{fields_from};
    ghost use Rattle.ds_places.specs.Nearest.{IsFirstFrom};
    ghost use Rattle.ds_screen.specs.Marks.{place_of, bare_cells};

    ghost Value = { List FieldAt };

    ghost view = { λ s. fields_from (bare_cells s.marks.now) s.from };

    ghost invariant = { λ s. IsFirstFrom place_of s.marks.now.marks s.from s.first };
}

impl<'a> OutlineFields<'a> {
    ghost use Rattle.std.specs.Prelude.{◌≡◌};
    ghost use Rattle.ds_screen.specs.Fields.{fields_of};
    ghost use Rattle.ds_screen.specs.Marks.{bare_cells};

    pub(crate) fn new(marks: &'a Marks) -> OutlineFields<'a>
        ensures { result ≡ fields_of (bare_cells marks.now) }
    {
        let first = marks.next_mark(0);
        OutlineFields {
            marks,
            from: 0,
            first,
            guess: 0,
        }
    }
}

impl<'a> Iterator for OutlineFields<'a> {
    type Item = FieldAt;

    ghost use Rattle.std.specs.Iterator.{YieldsFirst, item_count};

    ghost next_gives = { YieldsFirst (λ rest. rest) };

    ghost remaining = { item_count (λ rest. rest) };

    fn next(&mut self) -> Option<FieldAt> {
        let marks = self.marks;
        let next = marks.next_field(self.from, self.first, &mut self.guess)?;
        self.from = next.field.at + 1;
        self.first = next.later;
        Some(next.field)
    }
}
