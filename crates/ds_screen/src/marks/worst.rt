//! The fields that can be typed into, modified.

ghost use Rattle.std.specs.Prelude.{◌≡◌, true};
ghost use Rattle.ds_codec.specs.declared.cell.Cell.TheVariants.{Field};
ghost use Rattle.ds_codec.specs.Attribute.{with_modified};
ghost use Rattle.ds_screen.specs.Surface.{Becomes};
ghost use Rattle.ds_screen.specs.Marks.{IsMarked};
ghost use Rattle.ds_screen.specs.Worst.{worst_cell};

use crate::mark::Mark;
use crate::marks::Marks;
use crate::surface::Surface;
use ds_codec::{Attr, Cell};

impl Marks {
    ghost use Rattle.std.specs.Prelude.{◌≡◌, ◌<◌, ◌&&◌, nat_lt, not, true, length};
    ghost use Rattle.ds_codec.specs.Attribute.{is_protected};
    ghost use Rattle.ds_screen.specs.Picture.{cell_at};
    ghost use Rattle.ds_screen.specs.Fields.{is_attribute, span_of};
    ghost use Rattle.ds_screen.specs.Surface.{Tells};
    ghost use Rattle.ds_screen.specs.Marks.{IsMarked};

    /// How many positions the attribute at one governs.
    fn governed_length(&self, at: u32) -> u32
        requires { at < self.now.size }
        ensures { Tells IsMarked self.now (λ cells. is_attribute (cell_at cells at) ≡ true
            → result ≡ length (span_of cells at)) }
    {
        let _positions = self.size;
        self.length_before(at, self.next_mark(at + 1))
    }

    /// Whether an attribute is unprotected and governs a cell.
    fn begins_input(&self, at: u32, attribute: Attr) -> bool
        requires { at < self.now.size }
        ensures { Tells IsMarked self.now (λ cells. is_attribute (cell_at cells at) ≡ true
            → result ≡ (not (is_protected attribute) && nat_lt 0 (length (span_of cells at)))) }
    {
        !attribute.protected() && self.governed_length(at) > 0
    }
}

fn modified_cell(attribute: Attr) -> Cell
    ensures { result ≡ Field (with_modified attribute true) }
{
    Cell::Field(attribute.with_modified(true))
}

/// Sets the modified data tag of each unprotected attribute that governs a cell.
pub(crate) fn tag_inputs(marks: &mut Marks)
    ensures shown { Becomes IsMarked marks.old marks.new worst_cell }
    ensures whole { marks.new.size ≡ marks.old.size }
    ensures room { marks.new.room ≡ marks.old.room }
{
    let mut from = 0;
    'inputs: while let Some(mark) = marks.next_mark(from) {
        let at = mark.at;
        let attribute = mark.attribute;
        if marks.begins_input(at, attribute) {
            marks.store(at, modified_cell(attribute));
        }
        from = at + 1;
    }
}
