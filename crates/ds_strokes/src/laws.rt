//! Laws on what strokes do. These functions do nothing: their contracts are the laws.

ghost use Rattle.ds_strokes.specs.Laws.{StrokeKeeps, QuietStrokesKeep, ModifiedIsTouched, StrokesStaySound};

/// An accepted stroke other than Clear changes characters of open cells and the modified data tag of unprotected
/// attributes, and no other cell.
pub fn stroke_keep_law()
    ensures { StrokeKeeps }
{}

/// So does a list of strokes of which none sends, of any length.
pub fn strokes_keep_law()
    ensures { QuietStrokesKeep }
{}

/// Along a list of strokes of which none sends, of any length, an attribute is modified exactly where they touch it.
pub fn stroke_touched_law()
    ensures { ModifiedIsTouched }
{}

/// Strokes leave a sound picture sound: its length is its size's, the cursor is inside, its characters exist, and so does
/// its attention identifier.
pub fn stroke_sound_law()
    ensures { StrokesStaySound }
{}
