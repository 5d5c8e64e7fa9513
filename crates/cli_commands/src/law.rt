//! Laws on lines, on `convert`, and on strokes at a checked screen.

ghost use Rattle.cli_commands.specs.Law.{ConvertsBack};
ghost use Rattle.cli_commands.specs.OwnStrokes.{OwnStrokesArePromised, OwnStrokesLeave};
ghost use Rattle.cli_commands.specs.SaysDrafts.{DraftsAreTold};
ghost use Rattle.cli_commands.specs.Says.{KeysAreNamed, RecordsAreTold, TellFirstFaults};

/// Records that are converted to order lines and back are read as the same commands and orders. It does
/// nothing: its contract is the law.
pub fn convert_law()
    ensures { ConvertsBack }
{}

/// Lines tell keys exactly where they name them, records exactly where they spell them, and records as order
/// lines exactly where they say them; of records, keys and order lines a fault is told exactly where it is the first. It does nothing: its contract is the law.
pub fn lines_law()
    ensures keys { KeysAreNamed }
    ensures records { RecordsAreTold }
    ensures drafts { DraftsAreTold }
    ensures faults { TellFirstFaults }
{}

/// The strokes of this terminal, insert mode, duplicate and field mark among them, leave what any terminal can leave, so what a yes
/// of `check` promises of any terminal holds of each list of strokes of which none sends, with insert mode on at first or off. It
/// does nothing: its contract is the law.
pub fn own_strokes_law()
    ensures strokes { OwnStrokesLeave }
    ensures promised { OwnStrokesArePromised }
{}
