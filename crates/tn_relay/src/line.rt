//! A line that doesn't wait.

ghost use Rattle.std.specs.Prelude.{◌≡◌, ℕ, List, Bool, true, ◌<◌, [], ◌∷◌, ◌++◌, length};
ghost use Rattle.tn_relay.specs.Lines.{Gives, Takes};

/// What a read of a line came to.
#[derive(Clone, Copy, Debug, PartialEq, Eq)]
pub enum Gave {
    /// So many bytes, one at least.
    Bytes(usize),
    /// Nothing yet.
    Nothing,
    /// Its end, or a failure: nothing more comes of it.
    End,
}

/// What a write to a line came to.
#[derive(Clone, Copy, Debug, PartialEq, Eq)]
pub enum Took {
    /// So many bytes, one at least.
    Bytes(usize),
    /// Nothing yet.
    Nothing,
    /// A failure: it takes nothing more.
    Failed,
}

/// A line that doesn't wait. Contracts see all that was read of it and written to it, whether it was told that nothing more will be
/// written, and what it answered each time that it was asked.
pub trait Line: Drop {
    ghost use Rattle.tn_relay.specs.declared.line.Gave.{Gave};
    ghost use Rattle.tn_relay.specs.declared.line.Took.{Took};

    /// The bytes that reads gave.
    ghost received: { Self → List ℕ };

    /// The bytes that writes took.
    ghost sent: { Self → List ℕ };

    /// Whether the end was told.
    ghost told_end: { Self → Bool };

    /// What each read came to.
    ghost read_answers: { Self → List Gave };

    /// What each write came to.
    ghost write_answers: { Self → List Took };

    /// One read into a buffer.
    fn read(&mut self, piece: &mut [u8]) -> Gave
        requires { 0 < length piece.old }
        ensures gives { Gives (received self.old) (received self.new) piece.new result }
        ensures asked { read_answers self.new ≡ read_answers self.old ++ result ∷ [] }
        ensures writes { write_answers self.new ≡ write_answers self.old }
        ensures room { length piece.new ≡ length piece.old }
        ensures sent { sent self.new ≡ sent self.old }
        ensures told { told_end self.new ≡ told_end self.old };

    /// One write of some bytes.
    fn write(&mut self, bytes: &[u8]) -> Took
        requires { 0 < length bytes.now }
        ensures takes { Takes (sent self.old) (sent self.new) bytes.now result }
        ensures asked { write_answers self.new ≡ write_answers self.old ++ result ∷ [] }
        ensures reads { read_answers self.new ≡ read_answers self.old }
        ensures received { received self.new ≡ received self.old }
        ensures told { told_end self.new ≡ told_end self.old };

    /// Tells that nothing more will be written.
    fn tell_end(&mut self)
        ensures told { told_end self.new ≡ true }
        ensures received { received self.new ≡ received self.old }
        ensures sent { sent self.new ≡ sent self.old }
        ensures reads { read_answers self.new ≡ read_answers self.old }
        ensures writes { write_answers self.new ≡ write_answers self.old };
}
