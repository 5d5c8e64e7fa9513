//! Where keys put the cursor (GA23-0059, "Keyboard").

ghost use Rattle.std.specs.Prelude.{◌≡◌, ◌<◌, ◌≤◌, length};
ghost use Rattle.ds_keys.specs.Moves.{start_back, settled, next_row};
ghost use Rattle.ds_keys.specs.Kept.{AreBack};

use crate::fields::starts_field;
use ds_codec::Cell;
use ds_screen::ring::{backward, distance, forward};
use ds_screen::{Cells, Screen};

/// How many cells a search looks at before it asks for the next attribute: that is quicker where attributes stand close
/// together.
const NEAR: u32 = 8;

/// How many characters stand from a position back to the attribute before it round the buffer, at most `most`.
fn characters_back<C: Cells>(screen: &Screen<C>, at: u32, most: u32) -> u32
    requires inside { at < length screen.now.cells }
    requires few { most ≤ length screen.now.cells }
    ensures within { result ≤ most }
    ensures characters { AreBack screen.now.cells at result }
{
    let n = screen.position_count();
    'near: for run in 0..most.min(NEAR) {
        if let Cell::Field(_) = screen.cell(backward(n, at, run)) {
            return run;
        }
    }
    match screen.attr_before(at) {
        Some(q) => distance(n, q, at).min(most),
        None => most,
    }
}

/// The field start at the least positive distance going back, `from` itself last; 0 where there is none. It goes
/// from attribute to attribute.
pub(crate) fn place_back<C: Cells>(screen: &Screen<C>, from: u32) -> u32
    requires { from < length screen.now.cells }
    ensures start { result ≡ start_back screen.now.cells from }
    ensures inside { result < length screen.now.cells }
{
    let n = screen.position_count();
    let mut at = backward(n, backward(n, from, 1), 1);
    let mut gone = 0;
    'attributes: while gone < n {
        let run = characters_back(screen, at, n - gone);
        gone += run;
        if gone == n {
            return 0;
        }
        let stop = backward(n, at, run);
        let place = forward(n, stop, 1);
        if starts_field(screen.cell(stop), screen.cell(place)) {
            return place;
        }
        gone += 1;
        at = backward(n, stop, 1);
    }
    0
}

/// Where a cursor settles that moves on to `from` by itself: at a character, or at the field start ahead
/// of an auto-skip attribute.
pub(crate) fn settle<C: Cells>(screen: &Screen<C>, from: u32) -> u32
    requires { from < length screen.now.cells }
    ensures settles { result ≡ settled screen.now.cells from }
    ensures inside { result < length screen.now.cells }
{
    let n = screen.position_count();
    let mut at = from;
    'steps: for steps in 0..n {
        match screen.cell(at) {
            Cell::Char(_) => return at,
            Cell::Field(attribute) => {
                if attribute.auto_skip() {
                    return screen.start_ahead(at);
                }
            }
        }
        at = forward(n, at, 1);
    }
    0
}

/// The first position of the row after that of `p`, of `n` positions in rows of `cols`; the first row
/// after the last one.
#[tactic(auto, unfolding(crate::specs::Moves::next_row))]
pub(crate) fn row_after(n: u32, cols: u32, p: u32) -> u32
    requires inside { p < n }
    requires some { 0 < cols }
    ensures row { result ≡ next_row n cols p }
    ensures inside { result < n }
{
    let start = p - p % cols;
    if cols < n - start { start + cols } else { 0 }
}
