//! Laws that callers may use. These functions do nothing: their contracts are the laws.

ghost use Rattle.script_checks.specs.Laws.{YesIsPromised, SaysWhatCheckPrints, SaysWhatTalkPrints, ChecksAreLines, ReportsAreLines};
ghost use Rattle.script_checks.specs.Named.{IsFound, OrderIsNothing};

/// Where `Check` says yes, the file is a layout for the device, and the screen keeps what `check` promises on a yes: whatever keys are
/// pressed, no protected cell changes, and Enter or a PF key sends the layout's modified fields. Of several turns each keeps
/// what `check_talk` promises.
pub fn yes_law()
    ensures { YesIsPromised }
{}

/// What `Check` says of one turn is what `check` prints of its records, and of a turn with findings of several what `talk` prints.
pub fn texts_law()
    ensures check { SaysWhatCheckPrints }
    ensures talk { SaysWhatTalkPrints }
{}

/// No data line of `Check`, and no line of a report, has a line's end, whatever the names of files and the causes are.
pub fn lines_law()
    ensures checks { ChecksAreLines }
    ensures reports { ReportsAreLines }
{}

/// The layout that a screen is taken for matches it, and of those that do it is the one with the most entries, or the first of
/// several by name; in whatever order the layouts were added, it is the same.
pub fn chosen_law()
    ensures found { IsFound }
    ensures order { OrderIsNothing }
{}
