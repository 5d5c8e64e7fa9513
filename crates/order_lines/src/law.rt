//! Laws on the lines of records.

ghost use Rattle.order_lines.specs.Draft.{OrdersAreWrittenInTurn};
ghost use Rattle.order_lines.specs.Laws.{LinesTellAgain, RecordsAreWrittenAgain, OnlyInsideIsWritten};
ghost use Rattle.order_lines.specs.Says.{TellsWhatIsSaid};

/// The lines that are printed of a record say its command and its orders again, whatever record can be
/// read. It does nothing: its contract is the law.
pub fn line_law()
    ensures { LinesTellAgain }
{}

/// A record that can be read is written again exactly for the buffers that have all its addresses, and
/// what is written is read as the same command and orders. It does nothing: its contract is the law.
pub fn record_law()
    ensures again { RecordsAreWrittenAgain }
    ensures only { OnlyInsideIsWritten }
{}

/// What is told of a line is exactly what it says, in whatever order its name is looked for. It does nothing:
/// its contract is the law.
pub fn told_law()
    ensures { TellsWhatIsSaid }
{}

/// What a draft's orders are written as, one after the other, is what is written of the whole record; so is why it cannot
/// be. It does nothing: its contract is the law.
pub fn draft_law()
    ensures { OrdersAreWrittenInTurn }
{}
