//! The names of actions.

ghost use Rattle.std.specs.Prelude.{◌≡◌};
ghost use Rattle.std.specs.List.{find};
ghost use Rattle.script_keys.specs.Names.{name_text, is_named, name_of};

/// What an action is called, in s3270's words.
#[derive(Clone, Copy, Debug, PartialEq, Eq)]
pub enum Name {
    Connect,
    Open,
    Disconnect,
    Close,
    Quit,
    Exit,
    Enter,
    Pf,
    Pa,
    Clear,
    Tab,
    BackTab,
    Home,
    Newline,
    Up,
    Down,
    Left,
    Right,
    BackSpace,
    Erase,
    Delete,
    DeleteField,
    EraseEof,
    EraseInput,
    FieldEnd,
    Reset,
    MoveCursor,
    MoveCursor1,
    Key,
    String,
    Ascii,
    Ascii1,
    AsciiField,
    Ebcdic,
    Ebcdic1,
    EbcdicField,
    ReadBuffer,
    Snap,
    PrintText,
    Query,
    Show,
    Wait,
    Set,
    Toggle,
    Info,
    Ignore,
    Bell,
    Expect,
    Check,
}

/// All names. Those that tools send most are looked at first.
const NAMES: [Name; 49] = [
    Name::Ascii,
    Name::String,
    Name::MoveCursor,
    Name::Query,
    Name::Wait,
    Name::Enter,
    Name::Pf,
    Name::Connect,
    Name::Disconnect,
    Name::Quit,
    Name::Tab,
    Name::BackTab,
    Name::Home,
    Name::Newline,
    Name::Up,
    Name::Down,
    Name::Left,
    Name::Right,
    Name::Pa,
    Name::Clear,
    Name::BackSpace,
    Name::Erase,
    Name::Delete,
    Name::DeleteField,
    Name::EraseEof,
    Name::EraseInput,
    Name::FieldEnd,
    Name::Reset,
    Name::MoveCursor1,
    Name::Key,
    Name::Open,
    Name::Close,
    Name::Exit,
    Name::Ascii1,
    Name::AsciiField,
    Name::Ebcdic,
    Name::Ebcdic1,
    Name::EbcdicField,
    Name::ReadBuffer,
    Name::Snap,
    Name::PrintText,
    Name::Show,
    Name::Set,
    Name::Toggle,
    Name::Info,
    Name::Ignore,
    Name::Bell,
    Name::Expect,
    Name::Check,
];

impl Name {
    /// The name as s3270 writes it.
    pub fn text(self) -> &'static str
        ensures { result.now ≡ name_text self }
    {
        match self {
            Name::Connect => "Connect",
            Name::Open => "Open",
            Name::Disconnect => "Disconnect",
            Name::Close => "Close",
            Name::Quit => "Quit",
            Name::Exit => "Exit",
            Name::Enter => "Enter",
            Name::Pf => "PF",
            Name::Pa => "PA",
            Name::Clear => "Clear",
            Name::Tab => "Tab",
            Name::BackTab => "BackTab",
            Name::Home => "Home",
            Name::Newline => "Newline",
            Name::Up => "Up",
            Name::Down => "Down",
            Name::Left => "Left",
            Name::Right => "Right",
            Name::BackSpace => "BackSpace",
            Name::Erase => "Erase",
            Name::Delete => "Delete",
            Name::DeleteField => "DeleteField",
            Name::EraseEof => "EraseEOF",
            Name::EraseInput => "EraseInput",
            Name::FieldEnd => "FieldEnd",
            Name::Reset => "Reset",
            Name::MoveCursor => "MoveCursor",
            Name::MoveCursor1 => "MoveCursor1",
            Name::Key => "Key",
            Name::String => "String",
            Name::Ascii => "Ascii",
            Name::Ascii1 => "Ascii1",
            Name::AsciiField => "AsciiField",
            Name::Ebcdic => "Ebcdic",
            Name::Ebcdic1 => "Ebcdic1",
            Name::EbcdicField => "EbcdicField",
            Name::ReadBuffer => "ReadBuffer",
            Name::Snap => "Snap",
            Name::PrintText => "PrintText",
            Name::Query => "Query",
            Name::Show => "Show",
            Name::Wait => "Wait",
            Name::Set => "Set",
            Name::Toggle => "Toggle",
            Name::Info => "Info",
            Name::Ignore => "ignore",
            Name::Bell => "Bell",
            Name::Expect => "Expect",
            Name::Check => "Check",
        }
    }
}

/// Whether a text is a name, in either case.
fn is_named(text: &[u8], name: Name) -> bool
    ensures { result ≡ is_named text.now name }
{
    text.eq_ignore_ascii_case(name.text().as_bytes())
}

/// The first of some names that a text is.
fn name_in(text: &[u8], names: &[Name]) -> Option<Name>
    ensures { result ≡ find (is_named text.now) names.now }
{
    names.iter().copied().find(|name| is_named(text, *name))
}

/// The name that a text is, whole and in either case.
#[tactic(auto, unfolding(crate::specs::Names::name_of))]
pub fn name_of(text: &[u8]) -> Option<Name>
    ensures { result ≡ name_of text.now }
{
    name_in(text, &NAMES)
}
