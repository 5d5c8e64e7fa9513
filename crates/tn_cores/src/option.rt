//! The Telnet options of a session, and the words of their subnegotiations.

ghost use Rattle.std.specs.Prelude.{◌≡◌};
ghost use Rattle.tn_cores.specs.Options.{option_code, option_of, reason_code};
ghost use Rattle.tn_cores.specs.Rows.{are_both};

/// A Telnet option.
#[derive(Clone, Copy)]
pub(crate) enum TelnetOption {
    /// 00, BINARY (RFC 856).
    Binary,
    /// 18, TERMINAL-TYPE (RFC 1091).
    TerminalType,
    /// 19, END-OF-RECORD (RFC 885).
    EndOfRecord,
    /// 28, TN3270E (RFC 2355).
    Tn3270e,
    /// Any other.
    Other(u8),
}

impl TelnetOption {
    /// The option of a code.
    pub(crate) fn from_code(code: u8) -> TelnetOption
        ensures { result ≡ option_of code }
    {
        match code {
            0 => TelnetOption::Binary,
            24 => TelnetOption::TerminalType,
            25 => TelnetOption::EndOfRecord,
            40 => TelnetOption::Tn3270e,
            _ => TelnetOption::Other(code),
        }
    }

    /// The option's code.
    pub(crate) fn code(self) -> u8
        ensures { result ≡ option_code self }
    {
        match self {
            TelnetOption::Binary => 0,
            TelnetOption::TerminalType => 24,
            TelnetOption::EndOfRecord => 25,
            TelnetOption::Tn3270e => 40,
            TelnetOption::Other(code) => code,
        }
    }
}

/// Whether an option is in force, on each side of the line.
#[derive(Clone, Copy)]
pub(crate) struct Sides {
    /// On the side of the core itself: its WILL, the peer's DO.
    pub(crate) ours: bool,
    /// On the peer's side.
    pub(crate) theirs: bool,
}

impl Sides {
    /// In force on neither side.
    pub(crate) const NEITHER: Sides = Sides {
        ours: false,
        theirs: false,
    };

    /// In force on both.
    pub(crate) fn are_both(self) -> bool
        ensures { result ≡ are_both self }
    {
        self.ours && self.theirs
    }
}

/// Why a host refuses a device (RFC 2355, section 7.1).
#[derive(Clone, Copy)]
pub(crate) enum Reason {
    /// 03, INV-NAME: the resource is not ours.
    InvalidName,
    /// 04, INV-DEVICE-TYPE: the device does not fit.
    InvalidDeviceType,
    /// 07, UNSUPPORTED-REQ: no device is associated with another.
    UnsupportedRequest,
}

impl Reason {
    /// The reason's code.
    pub(crate) fn code(self) -> u8
        ensures { result ≡ reason_code self }
    {
        match self {
            Reason::InvalidName => 3,
            Reason::InvalidDeviceType => 4,
            Reason::UnsupportedRequest => 7,
        }
    }
}
