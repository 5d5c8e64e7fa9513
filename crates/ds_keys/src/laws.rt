//! Laws on what keys do. These functions do nothing: their contracts are the laws.

ghost use Rattle.ds_keys.specs.Laws.{KeyKeeps, QuietKeysKeep, ModifiedIsTouched, HasOneStep, KeysStaySound};
ghost use Rattle.ds_keys.specs.Shape.{KeyKeepsShape};

/// An accepted key other than Clear changes characters of open cells and the modified data tag of
/// unprotected attributes, and no other cell.
pub fn keep_law()
    ensures { KeyKeeps }
{}

/// So does a list of keys of which none sends, of any length.
pub fn quiet_keep_law()
    ensures { QuietKeysKeep }
{}

/// An accepted key other than Clear keeps the shape: the size, and the attributes' positions and bits, an
/// unprotected one's modified data tag aside.
pub fn shape_law()
    ensures { KeyKeepsShape }
{}

/// A key leads from a picture to one picture, with one answer.
pub fn one_step()
    ensures { HasOneStep }
{}

/// Along a list of keys of which none sends, of any length, an attribute is modified exactly where it is
/// touched by the history of keys.
pub fn touched_law()
    ensures { ModifiedIsTouched }
{}

/// Keys leave a sound picture sound: its length is its size's, the cursor is inside, its characters exist, and
/// so does its attention identifier.
pub fn sound_law()
    ensures { KeysStaySound }
{}
