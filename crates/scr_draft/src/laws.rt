//! Laws on drafts. These functions do nothing: their contracts are the laws.

ghost use Rattle.scr_draft.specs.Laws.{DraftsAreLayouts, NamesAreFree, LabelsAreLast};

/// Of a screen with at most 1,000 fields to declare a draft is printed. Its text says a layout: each name is lawful, and none
/// comes twice.
pub fn drafts_law()
    ensures { DraftsAreLayouts }
{}

/// Whatever a field's label and the names before it, one form of its name is none of these, and it gets the first.
pub fn free_name_law()
    ensures { NamesAreFree }
{}

/// The label of a field is the last text before it on its row, from the first word after a border to the last word.
pub fn label_law()
    ensures { LabelsAreLast }
{}
