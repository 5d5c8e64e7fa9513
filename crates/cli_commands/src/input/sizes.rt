//! The line that tells the sizes of the terminal.

ghost use Rattle.std.specs.Prelude.{◌≡◌};
ghost use Rattle.cli_commands.specs.Sizes.{geometry_from, geometry_by, geometry_after, geometry_in, geometry_told, sizes_told, usual_sizes};

use ds_codec::{Geometry, Mode, Size};
use scr_layout::size_of_text;

fn geometry(mode: Mode, default: &str, alternate: &str) -> Option<Geometry>
    ensures { result ≡ geometry_by mode default.now alternate.now }
{
    let default = size_of_text(mode, default);
    let alternate = size_of_text(mode, alternate);
    of_sizes(mode, default, alternate)
}

fn of_sizes(mode: Mode, default: Option<Size>, alternate: Option<Size>) -> Option<Geometry>
    ensures { result ≡ geometry_from mode default alternate }
{
    Geometry::new(default?, alternate?, mode).ok()
}

/// The sizes that the words after the default size tell with it.
fn geometry_after(default: &str, rest: &str) -> Option<Geometry>
    ensures { result ≡ geometry_after default.now rest.now }
{
    if rest == "16" {
        return geometry(Mode::Bits16, default, default);
    }
    match rest.split_once(' ') {
        Some((alternate, last)) => {
            if last == "16" {
                geometry(Mode::Bits16, default, alternate)
            } else {
                None
            }
        }
        None => geometry(Mode::usual(), default, rest),
    }
}

/// The sizes that words tell: one for both, or the default and the alternate size; and `16` for addresses of 16 bits.
fn geometry_in(words: &str) -> Option<Geometry>
    ensures { result ≡ geometry_in words.now }
{
    match words.split_once(' ') {
        Some((default, rest)) => geometry_after(default, rest),
        None => geometry(Mode::usual(), words, words),
    }
}

/// Whether a line of sizes may come next.
#[derive(Clone, Copy, Debug, PartialEq, Eq)]
pub enum SizeLine {
    Allowed,
    Refused,
}

/// 24 rows of 80 columns, both sizes.
pub fn usual_geometry() -> Geometry
    ensures { result ≡ usual_sizes }
{
    let size = Size { rows: 24, cols: 80 };
    match Geometry::new(size, size, Mode::usual()) {
        Ok(geometry) => geometry,
        Err(_) => unreachable!(),
    }
}

/// The sizes that a line tells: `size RxC`, or `size RxC RxC` for the default and the alternate size; then ` 16` for addresses
/// of 16 bits.
#[inline(never)]
fn told_geometry(line: &str) -> Option<Geometry>
    ensures { result ≡ geometry_told line.now }
{
    geometry_in(line.strip_prefix("size ")?)
}

/// The sizes that a line tells where it may.
#[inline(always)]
pub fn told_sizes(size_line: SizeLine, line: &str) -> Option<Geometry>
    ensures { result ≡ sizes_told size_line line.now }
{
    match size_line {
        SizeLine::Allowed => told_geometry(line),
        SizeLine::Refused => None,
    }
}
