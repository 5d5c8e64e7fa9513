//! What Query can be asked for.

ghost use Rattle.std.specs.Prelude.{◌≡◌};
ghost use Rattle.std.specs.Str.{str_eq_ignore_ascii_case};
ghost use Rattle.script_screens.specs.Query.{item_name, item_in, item_named};

/// What is asked for.
#[derive(Clone, Copy, Debug, PartialEq, Eq)]
pub(crate) enum Item {
    BindPluName,
    ConnectionState,
    Cursor,
    Cursor1,
    Formatted,
    Host,
    LocalEncoding,
    LuName,
    Model,
    ScreenCurSize,
    ScreenMaxSize,
    ScreenSizeCurrent,
    ScreenSizeMax,
    TerminalName,
    Tls,
    Version,
}

/// All of them, in the order of their names.
const ALL: [Item; 16] = [
    Item::BindPluName,
    Item::ConnectionState,
    Item::Cursor,
    Item::Cursor1,
    Item::Formatted,
    Item::Host,
    Item::LocalEncoding,
    Item::LuName,
    Item::Model,
    Item::ScreenCurSize,
    Item::ScreenMaxSize,
    Item::ScreenSizeCurrent,
    Item::ScreenSizeMax,
    Item::TerminalName,
    Item::Tls,
    Item::Version,
];

/// Those that are said when none is asked for.
pub(crate) const LISTED: [Item; 12] = [
    Item::BindPluName,
    Item::ConnectionState,
    Item::Cursor1,
    Item::Formatted,
    Item::Host,
    Item::LocalEncoding,
    Item::LuName,
    Item::ScreenSizeCurrent,
    Item::ScreenSizeMax,
    Item::TerminalName,
    Item::Tls,
    Item::Version,
];

/// The name of an item.
pub(crate) fn item_name(item: Item) -> &'static [u8]
    ensures { result.now ≡ item_name item }
{
    match item {
        Item::BindPluName => b"BindPluName",
        Item::ConnectionState => b"ConnectionState",
        Item::Cursor => b"Cursor",
        Item::Cursor1 => b"Cursor1",
        Item::Formatted => b"Formatted",
        Item::Host => b"Host",
        Item::LocalEncoding => b"LocalEncoding",
        Item::LuName => b"LuName",
        Item::Model => b"Model",
        Item::ScreenCurSize => b"ScreenCurSize",
        Item::ScreenMaxSize => b"ScreenMaxSize",
        Item::ScreenSizeCurrent => b"ScreenSizeCurrent",
        Item::ScreenSizeMax => b"ScreenSizeMax",
        Item::TerminalName => b"TerminalName",
        Item::Tls => b"Tls",
        Item::Version => b"Version",
    }
}

/// Whether a text is the name of an item, in letters of either case.
fn is_named(item: Item, text: &[u8]) -> bool
    ensures { result ≡ str_eq_ignore_ascii_case text.now (item_name item) }
{
    text.eq_ignore_ascii_case(item_name(item))
}

/// The first of some items of this name, in letters of either case.
fn item_in(items: &[Item], text: &[u8]) -> Option<Item>
    ensures { result ≡ item_in items.now text.now }
{
    for item in items {
        if is_named(*item, text) {
            return Some(*item);
        }
    }
    None
}

/// The item of a name, in letters of either case.
pub(crate) fn item_named(text: &[u8]) -> Option<Item>
    ensures { result ≡ item_named text.now }
{
    item_in(&ALL, text)
}
