//! Order lines, each as what it tells.

ghost use Rattle.std.specs.Prelude.{◌≡◌, IfOk, None};
ghost use Rattle.order_lines.specs.Told.{told_of};
ghost use Rattle.cli_commands.specs.Drafts.{line_told};
ghost use Rattle.cli_commands.specs.Held.{order_line_seen};

use crate::input::lines::text_of;
use crate::input::sizes::{SizeLine, told_sizes};
use ds_codec::Geometry;
use order_lines::{Told, read_line};
use std::alloc::{AllocError, Global};

/// What one line tells.
#[derive(Drop)]
pub enum OrderLine {
    /// It is empty, which ends a record.
    Empty,
    Comment,
    Sizes(Geometry),
    Words(Told),
    Bad,
}

/// What a line tells that says no command and no order; its spaces count.
#[tactic(auto, unfolding(crate::specs::Drafts::line_told))]
fn other_line(size_line: SizeLine, line: &[u8]) -> OrderLine
    requires { told_of line.now ≡ None }
    ensures { order_line_seen result ≡ line_told size_line line.now }
{
    let Some(text) = text_of(line) else {
        return OrderLine::Bad;
    };
    match line {
        [] => return OrderLine::Empty,
        [b'#', ..] => return OrderLine::Comment,
        _ => {}
    }
    match told_sizes(size_line, text) {
        Some(geometry) => OrderLine::Sizes(geometry),
        None => OrderLine::Bad,
    }
}

/// What a line tells. A line that says a command or an order is of plain characters, and nothing else is looked for in it.
pub fn line_told(alloc: Global, size_line: SizeLine, line: &[u8]) -> Result<OrderLine, AllocError>
    ensures { IfOk result (λ told. order_line_seen told ≡ line_told size_line line.now) }
{
    match read_line(alloc, line)? {
        Some(told) => Ok(OrderLine::Words(told)),
        None => Ok(other_line(size_line, line)),
    }
}
