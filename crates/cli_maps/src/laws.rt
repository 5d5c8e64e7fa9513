//! Laws on maps. These functions do nothing: their contracts are the laws.

ghost use Rattle.cli_maps.specs.Screen.{MapsAreShown, PutsAreLeft};
ghost use Rattle.cli_maps.specs.Kept.{MapsAreJudged, YesIsKept};
ghost use Rattle.cli_maps.specs.Layouts.{LayoutsAreRead};

/// The record of each map of whatever source is written, and refused on no screen of the map's size. It leaves an attribute of
/// exactly its bits at the cell of each field, from the next cell on its text, nulls where no field puts anything, and the
/// cursor after the attribute of the field that has it; where two fields put something at one position, the later one does.
pub fn maps_are_shown()
    ensures { MapsAreShown }
{}

/// What is put at a position last stands there; where nothing is put, what stood there.
pub fn puts_are_left()
    ensures { PutsAreLeft }
{}

/// The text of the layout of each map of whatever source is a layout, and is read as the one of the map's named fields: an input for
/// each that is unprotected, a fixed one for each that is protected with its modified data tag.
pub fn layouts_are_read()
    ensures { LayoutsAreRead }
{}

/// A yes of `check --map` is kept, for each map of whatever source: whatever is pressed, what is protected stands as the map has
/// it, and Enter and each PF key send fields of the map alone that have a label and are unprotected or have FSET, each at its
/// place with no more characters than its length.
pub fn yes_is_kept()
    ensures { YesIsKept }
{}

/// Each map of whatever source is judged, by its own layout and its own record: where a source is read, `check --map` has no fault.
pub fn maps_are_judged()
    ensures { MapsAreJudged }
{}
