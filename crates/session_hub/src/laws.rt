//! Laws of hubs. These functions do nothing: their contracts are the laws.

ghost use Rattle.session_hub.specs.Alone.{SessionsAreTheirOwn};
ghost use Rattle.session_hub.specs.Hubs.{IsIsolated, IsDeterminedAlone};

use crate::session::Session;

/// Isolation: however a hub was led, by events of whatever terminals, each terminal's seat is led by its own events and the time
/// alone, as if there were no other. What is due to it, how it stands, and what comes of it hang on these.
pub fn isolation_law<S: Session>()
    ensures { IsIsolated S.takes }
{}

/// Where a session's answers hang on its bytes alone, a terminal's own events determine its seat: in two hubs, whatever else came
/// to either, it is the same.
pub fn alone_law<S: Session>()
    ensures { IsDeterminedAlone S.takes }
{}

/// A terminal's session is given a front of the pieces that came from its terminal, in turn, and nothing else; and what went out
/// to the terminal, followed by what is still due to it, is what was due and then what the session gave.
pub fn own_law<S: Session>()
    ensures { SessionsAreTheirOwn S.takes }
{}
