//! What is known of a connection.

/// How a host and a terminal talk.
#[derive(Clone, Copy, Debug, PartialEq, Eq)]
pub enum Protocol {
    /// TN3270 (RFC 1576).
    Tn3270,
    /// TN3270E (RFC 2355).
    Tn3270e,
}

/// A connection. No text of it has a line end.
#[derive(Clone, Copy, Debug)]
pub struct Connection<'a> {
    /// The host as it was given, without the port, a prefix and the name of a logical unit.
    pub host: &'a [u8],
    pub port: u16,
    pub protocol: Protocol,
    /// The name of the logical unit, empty where there is none.
    pub lu_name: &'a [u8],
}

/// A device. No text of it has a line end.
#[derive(Clone, Copy, Debug)]
pub struct Device<'a> {
    /// Its name, as `IBM-3278-2`.
    pub name: &'a [u8],
    /// What is said of the program's version.
    pub version: &'a [u8],
}
