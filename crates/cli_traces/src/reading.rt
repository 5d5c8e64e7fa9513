//! What is known of a connection beside what is open of its streams.

ghost use Rattle.std.specs.Prelude.{◌≡◌};
ghost use Rattle.cli_traces.specs.Reading.{again, at_first, ends_text, scanned};

use crate::asked::Asked;
use crate::start::{Place, Start};
use crate::turn::Stage;
use tn_cores::ScreenModel;
use tn_traces::{Negotiated, Side};

/// What is known of a connection, and of what was printed before it.
#[derive(Clone, Copy)]
pub(crate) struct Reading {
    /// How far this connection is from its first record.
    pub(crate) start: Start,
    /// Where in its token the host's stream stands, before its first record.
    pub(crate) place: Place,
    /// Whether what is open of it is plain text.
    pub(crate) plain: bool,
    /// How far TN3270E is agreed.
    pub(crate) now: Negotiated,
    /// The model that this connection named last.
    pub(crate) named: Option<ScreenModel>,
    /// The model whose line of sizes was printed.
    pub(crate) sized: Option<ScreenModel>,
    /// The records printed as lines so far, over all connections, at most 2^64 - 1.
    pub(crate) count: u64,
    /// The records of structured fields printed as comments, likewise.
    pub(crate) fields: u64,
    /// Where the dialogue stands.
    pub(crate) stage: Stage,
    /// The turn at hand, from 0.
    pub(crate) turn: u64,
}

/// What is to be done with the events of a piece.
#[derive(Clone, Copy)]
pub(crate) struct Task {
    /// What is asked for.
    pub(crate) asked: Asked,
    /// Who sent it.
    pub(crate) side: Side,
    /// The number of the line, from 1.
    pub(crate) line: u64,
}

impl Reading {
    /// Before the first line.
    pub(crate) fn first() -> Reading
        ensures { result ≡ at_first }
    {
        Reading {
            start: Start::Agreeing,
            place: Place::Data,
            plain: true,
            now: Negotiated::Classic,
            named: None,
            sized: None,
            count: 0,
            fields: 0,
            stage: Stage::Blank,
            turn: 0,
        }
    }

    /// At the beginning of the next connection.
    pub(crate) fn again(self) -> Reading
        ensures { result ≡ again self }
    {
        Reading {
            start: Start::Agreeing,
            place: Place::Data,
            plain: true,
            now: Negotiated::Classic,
            named: None,
            ..self
        }
    }

    /// With one more byte of the host's, before its first record.
    pub(crate) fn scanned(self, byte: u8) -> Reading
        ensures { result ≡ scanned byte self }
    {
        Reading {
            place: self.place.after(byte),
            plain: self.place.stays_plain(byte, self.plain),
            ..self
        }
    }

    /// Whether what is open of a side's stream is text, and ends here.
    pub(crate) fn ends_text(self, side: Side) -> bool
        ensures { result ≡ ends_text side self }
    {
        self.start.is_cutting(side) && self.plain
    }
}
