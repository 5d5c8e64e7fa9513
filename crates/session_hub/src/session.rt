//! What sits in a hub.

use std::alloc::Global;

/// What a piece of the peer's stream made of a session.
#[derive(Clone, Copy, Debug, PartialEq, Eq)]
pub enum Came {
    /// It waits for more.
    More,
    /// It is over, well or by a fault, and takes nothing more.
    Over,
}

/// A session that bytes go into, and whose due bytes come out.
pub trait Session: Drop {
    ghost use Rattle.std.specs.Prelude.{ℕ, List, ◌≤◌, vec_len};
    ghost use Rattle.session_hub.specs.declared.session.Came.{Came};
    ghost use Rattle.session_hub.specs.Seats.{Adds};

    /// What bytes do to a session: what came of them, the bytes that are then due, and the session after them.
    ghost takes: { Self → List ℕ → Came → List ℕ → Self → Type 0 };

    /// Takes a piece of what the peer sent, and adds the bytes that are due after it. Where memory is refused the session is
    /// over: it fails alone.
    fn take(&mut self, alloc: Global, bytes: &[u8], due: &mut Vec<u8>) -> Came
        ensures took { Adds due.old.items due.new.items (λ given.
            takes self.old bytes.now result given self.new) }
        ensures grows { vec_len due.old ≤ vec_len due.new };
}
