//! The command codes of Telnet (RFC 854 and 885), and the limits of this crate.

ghost use Rattle.std.specs.Prelude.{◌≡◌, ◌↔◌, IsSome, IfSome, IsTrue};
ghost use Rattle.tn_wire.specs.Verbs.{verb_code, is_verb};

/// Interpret as command (RFC 854): begins each token that is no data byte. As data it is written twice.
pub const IAC: u8 = 0xFF;
/// Subnegotiation of the option that follows (RFC 854).
pub const SB: u8 = 0xFA;
/// End of the subnegotiation's parameters (RFC 854).
pub const SE: u8 = 0xF0;
/// End of record (RFC 885).
pub const EOR: u8 = 0xEF;

/// The most bytes of data that a record may have. Our own limit.
pub const RECORD_LIMIT: usize = 32_768;
/// The most bytes that a subnegotiation may have after its option. Our own limit.
pub const SUBNEGOTIATION_LIMIT: usize = 256;

/// What a peer offers, asks or refuses of an option (RFC 854).
#[derive(Clone, Copy, Debug, PartialEq, Eq)]
pub enum Verb {
    /// FB: it will use the option.
    Will,
    /// FC: it won't.
    Wont,
    /// FD: the other side is to use it.
    Do,
    /// FE: the other side is not to.
    Dont,
}

impl Verb {
    /// The verb of a command code, FB to FE.
    pub fn from_byte(byte: u8) -> Option<Verb>
        ensures found { IsSome result ↔ IsTrue (is_verb byte) }
        ensures code { IfSome result (λ verb. verb_code verb ≡ byte) }
    {
        match byte {
            0xFB => Some(Verb::Will),
            0xFC => Some(Verb::Wont),
            0xFD => Some(Verb::Do),
            0xFE => Some(Verb::Dont),
            _ => None,
        }
    }

    /// The verb's command code, FB to FE.
    pub fn byte(self) -> u8
        ensures { result ≡ verb_code self }
    {
        match self {
            Verb::Will => 0xFB,
            Verb::Wont => 0xFC,
            Verb::Do => 0xFD,
            Verb::Dont => 0xFE,
        }
    }
}
