//! Laws on what is printed. The functions do nothing: the law is the contract.

ghost use Rattle.cli_traces.specs.Law.{PiecesAddWhole, AddsOneText, CutsAgree, AllHaveOneText, EndsHaveOneText, EndsAreNotAll, SizesAreRead};

/// However what a side sent is cut in pieces, they add the same records to the text, in the same
/// order: that of all pieces as one. A piece adds one text.
pub fn pieces_law()
    ensures whole { PiecesAddWhole }
    ensures one { AddsOneText }
    ensures cuts { CutsAgree }
{}

/// Lines have one text: that of all of them, or that up to the one which ends them.
pub fn text_law()
    ensures all { AllHaveOneText }
    ensures ends { EndsHaveOneText }
    ensures either { EndsAreNotAll }
{}

/// The line of sizes that is printed is read as the sizes of the device.
pub fn sizes_law()
    ensures { SizesAreRead }
{}
