//! Keys, one after the other.

ghost use Rattle.std.specs.Prelude.{◌≡◌};
ghost use Rattle.script_keys.specs.Runs.{once, repeated};

use ds_keys::Key;

/// A key that is pressed so many times.
#[derive(Clone, Copy, Debug, PartialEq, Eq)]
pub struct Run {
    pub key: Key,
    pub times: u32,
}

/// A key that is pressed once.
pub(crate) fn once(key: Key) -> Run
    ensures { result ≡ once key }
{
    Run { key, times: 1 }
}

/// A key that is pressed so many times.
pub(crate) fn repeated(key: Key, count: u32) -> Run
    ensures { result ≡ repeated key count }
{
    Run { key, times: count }
}
