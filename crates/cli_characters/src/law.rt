//! Laws on characters.

ghost use Rattle.cli_characters.specs.Laws.{CharactersAreRead, CharactersConvertBack, CodesArePrinted, RunsAreRead};

/// The 95 characters and their codes belong to each other one by one, by the table by which screens are printed. It does nothing: its
/// contract is the law.
pub fn table_law()
    ensures printed { CodesArePrinted }
    ensures read { CharactersAreRead }
{}

/// The runs of a text spell its bytes; and records whose orders are printed with characters and converted back are read as the same
/// commands and orders. It does nothing: its contract is the law.
pub fn characters_law()
    ensures runs { RunsAreRead }
    ensures back { CharactersConvertBack }
{}
