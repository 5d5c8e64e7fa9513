//! Fields, as they lie in an answer.

ghost use Rattle.std.specs.Prelude.{◌≡◌};
ghost use Rattle.ds_inbound.specs.Answer.{written_characters};
ghost use Rattle.ds_inbound.specs.Characters.{characters_in};

/// A modified field: where it begins, and its characters as they were sent, lent from the answer. `chars` walks
/// them.
#[derive(Clone, Copy, Debug, PartialEq, Eq)]
pub struct FieldSlice<'a> {
    /// The position behind the field's attribute, counted from 0.
    pub place: u32,
    /// The characters: text bytes but 00, and pairs of 08 and a code.
    pub raw: &'a [u8],
    pub ghost whole: { written_characters (characters_in raw.now) ≡ raw.now },
}
