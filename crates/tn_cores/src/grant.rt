//! The name of the logical unit that a host grants.

ghost use Rattle.std.specs.Prelude.{◌≡◌, option_map};
ghost use Rattle.tn_cores.specs.Grants.{granted_in, lu_name_of};
ghost use Rattle.tn_cores.specs.HeardView.{heard_view, joined_view};

use crate::heard::{Heard, Joined};
use crate::terminal::TerminalPhase;

/// What CONNECT names; nothing where something else follows the device's name, or nothing.
fn lu_name_of<'a>(joined: &Joined<'a>) -> &'a [u8]
    ensures { result.now ≡ lu_name_of (joined_view joined.now) }
{
    match *joined {
        Joined::Alone | Joined::Associate => &[],
        Joined::Connect(resource) => resource,
    }
}

/// The name that is granted by what is heard in a phase.
pub(crate) fn granted_in<'a>(phase: TerminalPhase, heard: &Heard<'a>) -> Option<&'a [u8]>
    ensures { option_map (λ name. name.now) result ≡ granted_in phase (heard_view heard.now) }
{
    match (phase, *heard) {
        (TerminalPhase::Device, Heard::DeviceIs(_name, joined)) => Some(lu_name_of(&joined)),
        _ => None,
    }
}
