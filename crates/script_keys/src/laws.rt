//! Laws on what actions press. These functions do nothing: their contracts are the laws.

ghost use Rattle.script_keys.specs.Laws.{MovesFree, MovesNothing, TypesQuietly, PressesQuietly};

/// On a free keyboard, what moves the cursor to a position does that and nothing else; on one that isn't free it does nothing.
pub fn move_law()
    ensures free { MovesFree }
    ensures locked { MovesNothing }
{}

/// What types a character sends nothing, and so does every action that is no key that sends: so `quiet_keep_law` and `touched_law`
/// of [`ds_keys`] speak of them.
pub fn quiet_law()
    ensures types { TypesQuietly }
    ensures presses { PressesQuietly }
{}
