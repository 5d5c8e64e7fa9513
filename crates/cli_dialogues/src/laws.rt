//! Laws of dialogues among others. This function does nothing: its contract is the laws.

ghost use Rattle.cli_dialogues.specs.Alone.{DialoguesAreAlone, HostedDialoguesAgree};

use crate::hosted::Dialogue;
use session_hub::own_law;
use tn_dialogue::dialogue_law;

/// Whatever other terminals do, a terminal's session takes a front of what came from it, in turn, as a session of its own does; what
/// went out to it, and then what is still due, is what was due and what that session gives. And how the bytes were cut doesn't
/// matter: two terminals whose sessions took the same bytes, each among whatever others, got the same, stand alike, and answered
/// the same, where memory was not refused to either.
pub fn dialogue_host_law()
    ensures alone { DialoguesAreAlone }
    ensures agree { HostedDialoguesAgree }
{
    own_law::<Dialogue<'static>>();
    dialogue_law();
}
