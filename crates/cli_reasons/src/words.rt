//! The words of lines.

ghost use Rattle.std.specs.Prelude.{◌≡◌, map};
ghost use Rattle.cli_reasons.specs.Words.{key_words, stroke_words, order_words, top_words, field_words};

/// The words of keys.
const KEYS: [&str; 42] = [
    "left",
    "right",
    "up",
    "down",
    "tab",
    "backtab",
    "newline",
    "home",
    "eraseeof",
    "eraseinput",
    "delete",
    "reset",
    "type",
    "enter",
    "clear",
    "pa1",
    "pa2",
    "pa3",
    "pf1",
    "pf2",
    "pf3",
    "pf4",
    "pf5",
    "pf6",
    "pf7",
    "pf8",
    "pf9",
    "pf10",
    "pf11",
    "pf12",
    "pf13",
    "pf14",
    "pf15",
    "pf16",
    "pf17",
    "pf18",
    "pf19",
    "pf20",
    "pf21",
    "pf22",
    "pf23",
    "pf24",
];

/// The words of strokes, and keys among them.
const STROKES: [&str; 45] = [
    "left",
    "right",
    "up",
    "down",
    "tab",
    "backtab",
    "newline",
    "home",
    "eraseeof",
    "eraseinput",
    "delete",
    "reset",
    "type",
    "insert",
    "dup",
    "fieldmark",
    "enter",
    "clear",
    "pa1",
    "pa2",
    "pa3",
    "pf1",
    "pf2",
    "pf3",
    "pf4",
    "pf5",
    "pf6",
    "pf7",
    "pf8",
    "pf9",
    "pf10",
    "pf11",
    "pf12",
    "pf13",
    "pf14",
    "pf15",
    "pf16",
    "pf17",
    "pf18",
    "pf19",
    "pf20",
    "pf21",
    "pf22",
    "pf23",
    "pf24",
];

/// The words of commands and orders.
const ORDERS: [&str; 19] = [
    "W", "EW", "EWA", "EAU", "RB", "RM", "RMA", "NOP", "SF", "SFE", "SBA", "SA", "MF", "IC", "PT",
    "RA", "EUA", "GE", "TEXT",
];

/// The keys at the top of a layout.
const TOP: [&str; 6] = [
    "version",
    "addresses",
    "default",
    "alternate",
    "screen",
    "field",
];

/// The keys of a field of a layout.
const FIELD: [&str; 7] = ["name", "row", "col", "length", "kind", "count", "down"];

/// The words of keys.
pub(crate) fn key_words() -> &'static [&'static str]
    ensures { map (λ word. word.now) result.now ≡ key_words }
{
    &KEYS
}

/// The words of strokes, and keys among them.
pub(crate) fn stroke_words() -> &'static [&'static str]
    ensures { map (λ word. word.now) result.now ≡ stroke_words }
{
    &STROKES
}

/// The words of commands and orders.
pub(crate) fn order_words() -> &'static [&'static str]
    ensures { map (λ word. word.now) result.now ≡ order_words }
{
    &ORDERS
}

/// The keys at the top of a layout.
pub(crate) fn top_words() -> &'static [&'static str]
    ensures { map (λ word. word.now) result.now ≡ top_words }
{
    &TOP
}

/// The keys of a field of a layout.
pub(crate) fn field_words() -> &'static [&'static str]
    ensures { map (λ word. word.now) result.now ≡ field_words }
{
    &FIELD
}
