//! The name of the logical unit that a host granted (RFC 2355, section 7.1).

ghost use Rattle.std.specs.Prelude.{◌≡◌, ◌≤◌, [], take, length, option_map};
ghost use Rattle.tn_session.specs.LuNames.{name_kept};

use arrayvec::ArrayVec;
use std::marker::Model;

/// The most bytes of a name that are kept. Names of logical units have at most 8.
const MOST_BYTES: usize = 32;

/// A name, or its first 32 bytes where it is longer; empty until one was granted.
#[derive(Drop)]
pub(crate) struct LuName {
    bytes: ArrayVec<u8, 32>,
}

impl Model for LuName {
    ghost use Rattle.std.specs.Prelude.{ℕ, List};

    ghost Value = { List ℕ };

    ghost view = { λ n. n.bytes.items };
}

/// The first bytes of a name, as many as are kept.
#[tactic(auto, using(crate::proofs::LuNames::whole_name, crate::proofs::LuNames::front_length, crate::proofs::LuNames::front_short))]
fn front_of(name: &[u8]) -> &[u8]
    ensures value { result.now ≡ take 32 name.now }
    ensures short { length result.now ≤ 32 }
{
    if name.len() > MOST_BYTES {
        &name[..MOST_BYTES]
    } else {
        name
    }
}

impl LuName {
    /// No name.
    pub(crate) fn new() -> LuName
        ensures { result ≡ [] }
    {
        LuName {
            bytes: ArrayVec::new(),
        }
    }

    /// The name.
    pub(crate) fn bytes(&self) -> &[u8]
        ensures { result.now ≡ self.now }
    {
        &self.bytes
    }

    /// Takes another name in place of this one.
    fn replace(&mut self, name: &[u8])
        ensures { self.new ≡ take 32 name.now }
    {
        self.bytes.clear();
        self.bytes.try_extend_from_slice(front_of(name)).unwrap();
    }

    /// Takes the name that was granted, if one was.
    pub(crate) fn note(&mut self, granted: Option<&[u8]>)
        ensures { self.new ≡ name_kept self.old (option_map (λ name. name.now) granted.entry) }
    {
        if let Some(name) = granted {
            self.replace(name);
        }
    }
}
