//! The example of `ds_codec`.

use ds_codec::{Command, Mode, Record};

/// Whether a record is an Erase/Write.
fn erases(bytes: &[u8]) -> bool {
    match Record::read(Mode::Bits14, bytes) {
        Ok(record) => matches!(record.command(), Command::EraseWrite(_)),
        Err(_) => false,
    }
}
