//! Where the operator begins.

ghost use Rattle.std.specs.Prelude.{◌<◌};

/// The cursor, and how many positions the screen has.
#[derive(Clone, Copy)]
pub(crate) struct Cursor {
    pub cells: u32,
    pub at: u32,
    ghost inside: { at < cells },
}
