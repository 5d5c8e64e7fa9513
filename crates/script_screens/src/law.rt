//! Laws that callers may use.

ghost use Rattle.script_screens.specs.Laws.{CharactersHaveCodes, CodesHaveCharacters, PrintedAreCharacters, ReadingsAreLines, KeptAreLines, QueriesAreLines};

/// In both code pages the character of a code has this code, and what has a code is its character: so different codes have different
/// characters. The 95 characters that a screen is printed with have the same codes in 037. It does nothing: its contract is the law.
pub fn codes_law()
    ensures coded { CharactersHaveCodes }
    ensures read { CodesHaveCharacters }
    ensures printed { PrintedAreCharacters }
{}

/// No text of a data line has a line's end: of a reading action whatever the screen and the arguments are; of Snap and of Query where the
/// names of the host, of the logical unit and of the device have none. It does nothing: its contract is the law.
pub fn lines_law()
    ensures readings { ReadingsAreLines }
    ensures kept { KeptAreLines }
    ensures queries { QueriesAreLines }
{}
