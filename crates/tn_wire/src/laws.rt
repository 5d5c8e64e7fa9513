//! Laws over the definition of a stream's tokens. The functions do nothing: the law is the contract.

ghost use Rattle.tn_wire.specs.Laws.{HasOneReading, TellsAsWhole, FaultsAsWhole, NoneAfterFault, HasOneFault, HasOneAnswer};

/// A stream is spelled by one list of tokens, with one rest that is less than a token.
pub fn one_reading()
    ensures { HasOneReading }
{}

/// However a stream is cut, the parts taken one after the other tell what the whole tells, and leave open what it
/// leaves; and a fault behind a part is the whole's.
pub fn parts_law()
    ensures tells { TellsAsWhole }
    ensures faults { FaultsAsWhole }
{}

/// A stream has one fault at most, at one byte, and nothing that goes on behind it is a stream.
pub fn one_fault()
    ensures one { HasOneFault }
    ensures last { NoneAfterFault }
{}

/// What is open and what comes settle how much a call of [`Deframer::next`](crate::Deframer::next) takes, what it
/// answers, and what it leaves open.
pub fn one_answer()
    ensures { HasOneAnswer }
{}
