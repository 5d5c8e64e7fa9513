//! Where orders go on.

ghost use Rattle.std.specs.Prelude.{◌≡◌, false};

/// What orders work on beside the cells.
#[derive(Clone, Copy)]
pub(crate) struct State {
    /// The position that the cursor was put to.
    pub cursor: u32,
    /// The buffer address: the position that the next order works at.
    pub address: u32,
    /// Whether a Program Tab that comes next nulls what it passes.
    pub nulling: bool,
}

impl State {
    /// The same cursor, at that address, not nulling.
    pub(crate) fn at(self, address: u32) -> State
        ensures { result ≡ record { cursor = self.cursor; address = address; nulling = false } }
    {
        State {
            cursor: self.cursor,
            address,
            nulling: false,
        }
    }
}
