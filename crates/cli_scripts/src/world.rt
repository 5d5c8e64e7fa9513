//! What a script is worked over.

ghost use Rattle.std.specs.Prelude.{◌≡◌, ◌++◌, ℕ, List};
ghost use Rattle.cli_scripts.specs.Worlds.{Gives, Passes};

use ds_screen::{PlaneCells, Screen};
use tn_session::RunFault;

/// How long a read of the host waits.
#[derive(Clone, Copy, Debug, PartialEq, Eq)]
pub enum Patience {
    /// Not at all.
    None,
    /// Until something comes, or the line ends.
    Endless,
    /// So many thousandths of a second from when the wait began.
    Within {
        /// Thousandths of a second.
        limit: u32,
        /// The wait begins.
        begins: bool,
    },
}

/// What a read of the host gave.
#[derive(Clone, Copy, Debug, PartialEq, Eq)]
pub enum Heard {
    /// So many bytes, one at least.
    Bytes(usize),
    /// Nothing, as far as it waited.
    Nothing,
    /// The line ended, or failed.
    Closed,
}

/// What a script is worked over beside its lines and their answers: a line to a host, files, and a clock. Contracts see all that the host
/// gave, and all that was written to it or given up with its line.
pub trait World {
    /// The bytes that reads gave.
    ghost received: { Self → List ℕ };

    /// The bytes that were to be written.
    ghost sent: { Self → List ℕ };

    /// Connects to a host: whether that succeeded. Where it didn't the cause is left in words.
    fn connect(&mut self, host: &[u8], port: u16, cause: &mut Vec<u8>) -> bool
        ensures { Passes (received self.old) (sent self.old) (received self.new) (sent self.new) };

    /// Reads the host.
    fn read(&mut self, piece: &mut [u8], patience: Patience) -> Heard
        ensures read { Gives (received self.old) (received self.new) piece.new result }
        ensures sent { sent self.new ≡ sent self.old };

    /// Writes to the host. Where that fails, the next read says so.
    fn write(&mut self, bytes: &[u8])
        ensures sent { sent self.new ≡ sent self.old ++ bytes.now }
        ensures received { received self.new ≡ received self.old };

    /// Ends the line to the host.
    fn hang_up(&mut self)
        ensures { Passes (received self.old) (sent self.old) (received self.new) (sent self.new) };

    /// Waits so many thousandths of a second.
    fn pause(&mut self, time: u32)
        ensures { Passes (received self.old) (sent self.old) (received self.new) (sent self.new) };

    /// Writes a screen to a file, as a page: whether that succeeded. Where it didn't the cause is left in words.
    fn write_page(&mut self, path: &[u8], screen: &Screen<PlaneCells>, cause: &mut Vec<u8>) -> bool
        ensures { Passes (received self.old) (sent self.old) (received self.new) (sent self.new) };

    /// Reads a file of at most 16,777,216 bytes: whether that succeeded. It leaves what it holds, or else the cause in words.
    fn read_file(&mut self, path: &[u8], text: &mut Vec<u8>) -> bool
        ensures { Passes (received self.old) (sent self.old) (received self.new) (sent self.new) };

    /// Tells people why a session failed.
    fn tell_fault(&mut self, why: RunFault)
        ensures { Passes (received self.old) (sent self.old) (received self.new) (sent self.new) };
}
