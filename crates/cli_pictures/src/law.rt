//! Laws on drawings, and on texts with looks.

ghost use Rattle.cli_pictures.specs.Laws.{DrawsSeen, NamesEach};
ghost use Rattle.cli_pictures.specs.Unwrapped.{RowsAreShown};

/// In the drawing of a screen stand as many texts as characters are seen. It does nothing: its contract is the law.
pub fn drawing_law()
    ensures { DrawsSeen }
{}

/// In the drawing with a layout stand, besides these, one for each entry on the screen, one for each finding, and the list. It does
/// nothing: its contract is the law.
pub fn names_law()
    ensures { NamesEach }
{}

/// Without its sequences each row with looks is the row that `show` prints. It does nothing: its contract is the law.
pub fn looks_law()
    ensures { RowsAreShown }
{}
