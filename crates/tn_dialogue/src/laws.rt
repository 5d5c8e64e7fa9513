//! Laws of dialogues. This function does nothing: its contract is the law.

ghost use Rattle.tn_dialogue.specs.Laws.{DialoguesAgree};

use tn_session::pieces_law;

/// What a dialogue gives, and what is answered in it, is a function of the terminal's bytes: however they are cut, two sessions of
/// the same screens that were given the same bytes gave the same and stand alike, where memory was not refused.
pub fn dialogue_law()
    ensures { DialoguesAgree }
{
    pieces_law::<()>();
}
