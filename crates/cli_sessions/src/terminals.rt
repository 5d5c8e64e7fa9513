//! Where terminals come from, and what became of them.

ghost use Rattle.std.specs.Prelude.{◌≡◌, List, [], ◌∷◌, ◌++◌, IfErr, OnOk, None, Option};
ghost use Rattle.std.specs.IoError.{error_kind};
ghost use Rattle.tn_session.specs.Wire.{FreshLine};
ghost use Rattle.cli_sessions.specs.Serve.{HandsNext};

use std::io;
use std::io::{Read, Write};
use std::marker::Model;
use tn_session::{History, Wire};

/// Gives the lines of terminals, one after the other.
pub trait Terminals {
    /// A line to one terminal.
    type Line: Read + Write + Drop;

    /// The lines that are to come, where they are known.
    ghost lines: { Self → Option (List FreshLine) } = { λ _. None };

    /// Waits for the next terminal.
    ///
    /// # Errors
    ///
    /// Where none can be had.
    fn next_line(&mut self) -> io::Result<Self::Line>
        ensures { HandsNext (λ (line : Self.Line). record {
          left = Self.Line.remaining line;
          held = Self.Line.contents line;
        }) (lines self.old) result (lines self.new) };
}

/// Terminals, with what passed over the wire of each that has gone, and the errors in place of those that couldn't be had, for
/// contracts to see. A wire comes from here and goes back here, so each session is over the line of its terminal.
#[derive(Drop)]
pub struct Visits<T: Terminals> {
    terminals: T,
    gone: History<Wire<T::Line>>,
    missing: History<io::ErrorKind>,
}

impl<T: Terminals> Model for Visits<T> {
    ghost use Rattle.cli_sessions.specs.Serve.{Visited};

    ghost Value = { Visited };

    ghost view = { λ v. record {
      coming = T.lines v.terminals;
      gone = v.gone.items;
      missing = v.missing.items;
    } };
}

impl<T: Terminals> Visits<T> {
    ghost use Rattle.cli_sessions.specs.Serve.{Visited};

    /// No terminal has come yet.
    pub fn new(terminals: T) -> Visits<T>
        ensures { result ≡ record {
          coming = T.lines terminals;
          gone = [];
          missing = [];
        } }
    {
        Visits {
            terminals,
            gone: History::new(),
            missing: History::new(),
        }
    }

    /// Waits for the next terminal.
    ///
    /// # Errors
    ///
    /// Where none can be had.
    pub(crate) fn next_line(&mut self) -> io::Result<T::Line>
        ensures came { HandsNext (λ (line : T.Line). record {
          left = T.Line.remaining line;
          held = T.Line.contents line;
        }) self.old.coming result self.new.coming }
        ensures gone { self.new.gone ≡ self.old.gone }
        ensures had { OnOk result (self.new.missing ≡ self.old.missing) }
        ensures missed { IfErr result (λ error.
            self.new.missing ≡ self.old.missing ++ error_kind error ∷ []) }
    {
        let line = self.terminals.next_line();
        if let Err(error) = &line {
            self.missing = self.missing.and(&error.kind());
        }
        line
    }

    /// A terminal goes: its wire is dropped.
    pub(crate) fn end(&mut self, wire: Wire<T::Line>)
        ensures came { self.new.coming ≡ self.old.coming }
        ensures gone { self.new.gone ≡ self.old.gone ++ wire ∷ [] }
        ensures missing { self.new.missing ≡ self.old.missing }
    {
        self.gone = self.gone.and(&wire);
    }
}
