//! The line of sizes before the first record.

ghost use Rattle.std.specs.Prelude.{◌≡◌, ◌++◌, OnOk};
ghost use Rattle.std.specs.String.{string_bytes};
ghost use Rattle.cli_buffers.specs.Sizes.{first_size, is_other, size_line, sizes_text};

use ds_codec::Size;
use std::alloc::AllocError;

/// Whether the sizes of the terminal are printed before the first record.
#[derive(Clone, Copy, Debug, PartialEq, Eq)]
pub enum SizesLine {
    Told,
    Omitted,
}

/// Whether the line of sizes can't be true of a screen: another size stands in it.
pub(crate) fn is_other(sizes: SizesLine, first: Option<Size>, size: Size) -> bool
    ensures { result ≡ is_other sizes first size }
{
    match (sizes, first) {
        (SizesLine::Told, Some(first)) => first != size,
        _ => false,
    }
}

/// The size of the first screen, where this one is the next.
pub(crate) fn first_size(first: Option<Size>, size: Size) -> Size
    ensures { result ≡ first_size first size }
{
    match first {
        Some(first) => first,
        None => size,
    }
}

fn push_size(out: &mut String, size: Size) -> Result<(), AllocError>
    ensures { OnOk result (string_bytes out.new ≡ string_bytes out.old ++ size_line size) }
{
    let rows = size.rows;
    let cols = size.cols;
    write!(out, "size 24x80 {rows}x{cols}\n")
}

/// The line of sizes, where it is due.
pub(crate) fn push_sizes(
    out: &mut String,
    sizes: SizesLine,
    first: Option<Size>,
    size: Size,
) -> Result<(), AllocError>
    ensures { OnOk result
        (string_bytes out.new ≡ string_bytes out.old ++ sizes_text sizes first size) }
{
    match (sizes, first) {
        (SizesLine::Told, None) => push_size(out, size),
        _ => Ok(()),
    }
}
