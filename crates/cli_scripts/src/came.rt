//! What a script is given, and what it wants next.

use script_checks::LayoutText;

/// What came.
#[derive(Clone, Copy, Debug)]
pub enum Came<'a> {
    /// A line of the script, without its end.
    Line(&'a [u8]),
    /// A line of the script that was too long, and was not kept.
    LongLine,
    /// Bytes of the host.
    Bytes(&'a [u8]),
    /// Nothing had arrived of the host.
    Nothing,
    /// Nothing came of the host in time, or the time of a pause is over.
    Late,
    /// The line to the host ended, or failed.
    Closed,
    /// The host that was wanted is connected.
    Connected,
    /// It could not be connected, for this reason.
    Unconnected(&'a [u8]),
    /// The screen was written to the file that was wanted.
    Written,
    /// It could not be written, for this reason.
    Unwritten(&'a [u8]),
    /// The layout's file was read, or couldn't be.
    Layout(LayoutText<'a>),
}

/// What a line that is under way needs. What it names, the machine tells.
#[derive(Clone, Copy, Debug, PartialEq, Eq)]
pub enum Need {
    /// What has arrived of the host, without waiting for more.
    Arrived,
    /// Bytes of the host, however long that takes.
    Bytes,
    /// Bytes of the host, in so many thousandths of a second from when the wait began.
    BytesWithin {
        /// Thousandths of a second.
        limit: u32,
        /// The wait begins.
        begins: bool,
    },
    /// So many thousandths of a second, without a host.
    Pause(u32),
    /// A connection to a host.
    Connection,
    /// The screen in a file, as a page.
    Page,
    /// The text of a layout's file.
    Layout,
}

/// What is wanted next.
#[derive(Clone, Copy, Debug, PartialEq, Eq)]
pub enum Wants {
    /// The next line of the script: the last one was answered.
    Line,
    /// Something for the line that is under way.
    Need(Need),
    /// Nothing more: the last line was answered, and ended the script.
    Nothing,
}
