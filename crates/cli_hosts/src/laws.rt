//! Laws of terminals among others. This function does nothing: its contract is the laws.

ghost use Rattle.cli_hosts.specs.Alone.{HostsAreAlone, HostsAgree};

use crate::hosted::Hosted;
use session_hub::own_law;
use tn_session::pieces_law;

/// Whatever other terminals do, a terminal's session takes a front of what came from it, in turn, as a session of its own does; what
/// went out to it, and then what is still due, is what was due and what that session gives. And how the bytes were cut doesn't
/// matter: two terminals whose sessions took the same bytes, each among whatever others, got the same and stand alike, where memory
/// was not refused to either.
pub fn host_law()
    ensures alone { HostsAreAlone }
    ensures agree { HostsAgree }
{
    own_law::<Hosted<'static>>();
    pieces_law::<()>();
}
