//! Laws on binding. These functions do nothing: their contracts are the laws.

ghost use Rattle.scr_check.specs.Bindable.{BindsExactly};
ghost use Rattle.scr_check.specs.Any.{LeavesInSteps, OwnKeysArePromised, OwnKeysLeave, YesMeansForAny};
ghost use Rattle.scr_check.specs.Leads.{YesMeans};
ghost use Rattle.scr_check.specs.Pen.{SelectingLeaves, YesMeansWithPen};

/// An answer is bound exactly where no characters stand before its first field, each field's place is an
/// entry's that declares no fewer characters, and no entry comes twice; and it is bound to one pair for each
/// field, in their order: that entry, and the field's characters.
pub fn bind_law()
    ensures { BindsExactly }
{}

/// What a yes means for a screen of the layout's geometry, whatever it held before, that took the records and
/// was pressed: what is protected stands as the records wrote it, and the next Enter or PF key on a free
/// keyboard sends the touched fields, each as it is declared.
pub fn yes_law()
    ensures { YesMeans }
{}

/// What a yes means for any terminal, whatever its keys: the records led from a picture of the layout's geometry to one,
/// and the operator left a picture on which what is protected stands as in that one. Then Enter and each PF key send the
/// modified fields, each as it is declared.
pub fn any_terminal_law()
    ensures { YesMeansForAny }
{}

/// What an operator leaves in several steps is left in one, so it is enough that each key of a terminal leaves what is
/// protected. Those of this terminal do, and what is promised of any terminal holds of them.
pub fn own_keys_law()
    ensures steps { LeavesInSteps }
    ensures keys { OwnKeysLeave }
    ensures promised { OwnKeysArePromised }
{}

/// What a yes means for any terminal that has Cursor Select or a light pen, where the pen was asked for: on what an operator
/// left and then selected, in whatever order, what is protected still stands, so it is what an operator can leave; and Enter and
/// each PF key send its modified fields, each as it is declared.
pub fn pen_law()
    ensures leaves { SelectingLeaves }
    ensures promised { YesMeansWithPen }
{}
