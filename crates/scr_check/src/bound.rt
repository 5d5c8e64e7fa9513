//! A field of an answer with its entry.

ghost use Rattle.std.specs.Prelude.{◌≡◌};
ghost use Rattle.ds_inbound.specs.Answer.{written_characters};
ghost use Rattle.ds_inbound.specs.Characters.{characters_in};

/// A field of an answer, and the entry that declares it.
#[derive(Clone, Copy, Debug, PartialEq, Eq)]
pub struct Bound<'a> {
    /// The entry's index in the layout.
    pub entry: usize,
    /// The field's characters as they were sent, lent from the answer: text bytes but 00, and pairs of 08
    /// and a code. `ds_inbound::chars` walks them.
    pub raw: &'a [u8],
    pub ghost whole: { written_characters (characters_in raw.now) ≡ raw.now },
}
