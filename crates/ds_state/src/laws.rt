//! A law on states. The function does nothing: its contract is the law.

ghost use Rattle.ds_state.specs.State.{HasOnePicture};

/// No bytes are the states of two pictures.
pub fn one_picture()
    ensures { HasOnePicture }
{}
