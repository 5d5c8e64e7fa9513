//! The screen that has room for a map.

ghost use Rattle.std.specs.Prelude.{◌≡◌, ◌≤◌, IfSome};
ghost use Rattle.bms_map.specs.Mapset.{screen_for};

use ds_codec::Size;

/// The first screen with so many lines and columns.
#[tactic(auto, unfolding(crate::specs::Mapset::screen_for))]
pub(crate) fn screen_for(lines: u32, columns: u32) -> Option<Size>
    ensures screen { result ≡ screen_for lines columns }
    ensures fits { IfSome result (λ screen. (lines ≤ screen.rows) × (columns ≤ screen.cols)) }
    ensures small { IfSome result (λ screen. (screen.rows ≤ 43) × (screen.cols ≤ 132)) }
{
    if lines <= 24 && columns <= 80 {
        Some(Size { rows: 24, cols: 80 })
    } else if lines <= 32 && columns <= 80 {
        Some(Size { rows: 32, cols: 80 })
    } else if lines <= 43 && columns <= 80 {
        Some(Size { rows: 43, cols: 80 })
    } else if lines <= 27 && columns <= 132 {
        Some(Size {
            rows: 27,
            cols: 132,
        })
    } else {
        None
    }
}
