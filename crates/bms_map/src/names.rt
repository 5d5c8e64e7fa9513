//! Names of layouts.

ghost use Rattle.std.specs.Prelude.{◌≡◌, map, IfOk};
ghost use Rattle.bms_map.specs.LayoutText.{lower};

use std::alloc::{AllocError, Global};

/// A character of a layout name.
pub(crate) fn lower(code: u8) -> u8
    ensures { result ≡ lower code }
{
    match code {
        b'A'..=b'Z' => code + 32,
        b'@' | b'#' | b'$' => b'_',
        _ => code,
    }
}

/// The layout name of a label.
pub(crate) fn name_of(alloc: Global, label: &[u8]) -> Result<Vec<u8>, AllocError>
    ensures { IfOk result (λ name. name.items ≡ map lower label.now) }
{
    label.iter().map(|code| lower(*code)).collect(alloc)
}
