//! The command line: its commands and options, and the help of each.

use crate::help::{
    ATTACH, BIND, CHECK, CONVERT, DRAFT, EXPLAIN_HELP, FREEKB_HELP, FRSET_HELP, KEYS_HELP,
    LAYOUT_HELP, MAP, PRESS, RECORDS, SCRIPT, SERVE, SHOW, STATUSES, SUITE, TALK, TAP,
    WITH_FREEKB_HELP, WITH_FRSET_HELP,
};
use clap::{Arg, ArgAction, ArgMatches, Command, Error};
use std::alloc::{AllocError, Global};

const VERSION: &str = "1.0.0";

const SCREEN_FORMS: &[&str] = &["text", "svg", "html", "json", "screen"];

const WHEN: &[&str] = &["auto", "always", "never"];

const FINDING_FORMS: &[&str] = &["text", "json", "sarif"];

const SUITE_FORMS: &[&str] = &["text", "json", "junit", "sarif"];

const CODE_PAGES: &[&str] = &["bracket", "037"];

const REPORT_FORMS: &[&str] = &["text", "json", "junit"];

const DEVICE_HELP: &str =
    "The terminal: IBM-3278-M or IBM-3279-M, M from 2 to 5, and -E where it is extended";

const SOURCES: &[&str] = &["trace", "stream", "buffer"];

/// What an argument of a command takes.
#[derive(Clone, Copy)]
enum Takes<'a> {
    /// An operand, which must be given.
    Operand,
    /// A number from 1 to 65,535 of this name, which goes with the option of that one.
    NumberWith(&'a str, &'a str),
    /// A number from 0 to 65,535 of this name, where the option of that one isn't given.
    CountWithout(&'a str, &'a str),
    /// One operand or more.
    Operands,
    /// Nothing: the option is there or not.
    Nothing,
    /// The path of a file.
    File,
    /// The path of a file, where the option of this name isn't given.
    FileWithout(&'a str),
    /// A value of this name: one of these words, the one named last where none is given.
    OneOf(&'a str, &'a [&'a str], &'a str),
    /// A value of this name: a text, this one where none is given.
    Text(&'a str, &'a str),
    /// A value of this name: a number from 1 to this one, which must be given.
    Number(&'a str, i64),
    /// A value of this name: a number from 0 to this one, which must be given.
    AnyCount(&'a str, i64),
    /// A value of this name: a number from 1 to this one, which need not be given.
    UpTo(&'a str, i64),
    /// An operand, which need not be given.
    Optional,
    /// A value of this name, which need not be given.
    Value(&'a str),
    /// A value of this name, one of these words, which may be given where an option of this name is.
    WordWith(&'a str, &'a [&'a str], &'a str),
    /// The path of a file, where none of these is given.
    FileAlone(&'a [&'a str]),
    /// A value of this name, which may be given where an option of this name is, and none of these.
    ValueWith(&'a str, &'a str, &'a [&'a str]),
    /// Nothing: the option may be there where none of these is.
    NothingWithout(&'a [&'a str]),
    /// Nothing: the option may be there where one of this name is, and none of these.
    NothingWith(&'a str, &'a [&'a str]),
}

/// An argument of a command.
struct Argument<'a> {
    name: &'a str,
    takes: Takes<'a>,
    help: &'a str,
}

/// A command, with its help.
struct Described<'a> {
    name: &'a str,
    about: &'a str,
    after_help: &'a str,
    arguments: &'a [Argument<'a>],
}

/// The commands that show a screen and check one, in the order in which help lists them, as those below.
const SCREENS: &[Described<'_>] = &[
    Described {
        name: "show",
        about: "Print the screen that the records leave (the default command)",
        after_help: SHOW,
        arguments: &[
            Argument {
                name: "format",
                takes: Takes::OneOf("FORM", SCREEN_FORMS, "text"),
                help: "How the screen is printed",
            },
            Argument {
                name: "color",
                takes: Takes::OneOf("WHEN", WHEN, "auto"),
                help: "When the text has the looks of its cells",
            },
            Argument {
                name: "layout",
                takes: Takes::FileWithout("color"),
                help: "With svg and html: name the fields of this layout, and mark what check finds",
            },
            Argument {
                name: "map",
                takes: Takes::FileAlone(&["layout", "color"]),
                help: "Show a map of this BMS source, in place of records",
            },
            Argument {
                name: "map-name",
                takes: Takes::ValueWith("NAME", "map", &[]),
                help: "With --map: the map of this name",
            },
            Argument {
                name: "freekb",
                takes: Takes::NothingWith("map", &[]),
                help: WITH_FREEKB_HELP,
            },
            Argument {
                name: "frset",
                takes: Takes::NothingWith("map", &[]),
                help: WITH_FRSET_HELP,
            },
        ],
    },
    Described {
        name: "check",
        about: "Print yes, or the findings of records and a layout",
        after_help: CHECK,
        arguments: &[
            Argument {
                name: "LAYOUT",
                takes: Takes::Optional,
                help: LAYOUT_HELP,
            },
            Argument {
                name: "demo",
                takes: Takes::Nothing,
                help: "Press the keys of each finding that has some, and print what is sent",
            },
            Argument {
                name: "pen",
                takes: Takes::Nothing,
                help: "Find too what Cursor Select or a light pen may not select, F15",
            },
            Argument {
                name: "explain",
                takes: Takes::NothingWithout(&["demo", "format", "map"]),
                help: EXPLAIN_HELP,
            },
            Argument {
                name: "records",
                takes: Takes::File,
                help: "The file of the records, in place of standard input",
            },
            Argument {
                name: "format",
                takes: Takes::OneOf("FORM", FINDING_FORMS, "text"),
                help: "How the findings are printed",
            },
            Argument {
                name: "map",
                takes: Takes::FileAlone(&["LAYOUT", "records", "demo", "pen"]),
                help: "Check the maps of this BMS source, in place of a layout and records",
            },
            Argument {
                name: "map-name",
                takes: Takes::ValueWith("NAME", "map", &["LAYOUT"]),
                help: "With --map: check the map of this name alone",
            },
            Argument {
                name: "freekb",
                takes: Takes::NothingWith("map", &["LAYOUT"]),
                help: WITH_FREEKB_HELP,
            },
            Argument {
                name: "frset",
                takes: Takes::NothingWith("map", &["LAYOUT"]),
                help: WITH_FRSET_HELP,
            },
        ],
    },
];

/// The commands on maps, dialogues and suites, and on keys.
const DIALOGUES: &[Described<'_>] = &[
    Described {
        name: "map",
        about: "Print the records of BMS maps, or the layout of one",
        after_help: MAP,
        arguments: &[
            Argument {
                name: "FILE",
                takes: Takes::Operand,
                help: "The file of the maps' source",
            },
            Argument {
                name: "map",
                takes: Takes::Value("NAME"),
                help: "Print the map of this name alone",
            },
            Argument {
                name: "layout",
                takes: Takes::Nothing,
                help: "Print the layout of the map, in TOML",
            },
            Argument {
                name: "freekb",
                takes: Takes::Nothing,
                help: FREEKB_HELP,
            },
            Argument {
                name: "frset",
                takes: Takes::Nothing,
                help: FRSET_HELP,
            },
        ],
    },
    Described {
        name: "talk",
        about: "Print yes, or the findings of a dialogue: several screens, and an operator between them",
        after_help: TALK,
        arguments: &[
            Argument {
                name: "LAYOUT",
                takes: Takes::Operands,
                help: "The files of the layouts, one for each turn, in TOML",
            },
            Argument {
                name: "explain",
                takes: Takes::NothingWithout(&["format"]),
                help: EXPLAIN_HELP,
            },
            Argument {
                name: "format",
                takes: Takes::OneOf("FORM", FINDING_FORMS, "text"),
                help: "How the findings are printed",
            },
        ],
    },
    Described {
        name: "suite",
        about: "Check all screens of a manifest or a folder, and print a line for each, or a report",
        after_help: SUITE,
        arguments: &[
            Argument {
                name: "SUITE",
                takes: Takes::Operand,
                help: "The file of the manifest, in TOML, or a folder",
            },
            Argument {
                name: "format",
                takes: Takes::OneOf("FORM", SUITE_FORMS, "text"),
                help: "How the screens are reported",
            },
            Argument {
                name: "only",
                takes: Takes::Value("NAME"),
                help: "Check the screen of this name alone",
            },
        ],
    },
    Described {
        name: "press",
        about: "Press keys on the screen that the records leave, and print what is sent",
        after_help: PRESS,
        arguments: &[
            Argument {
                name: "KEYS",
                takes: Takes::Operand,
                help: KEYS_HELP,
            },
            Argument {
                name: "strokes",
                takes: Takes::Nothing,
                help: "Take the lines 'string', 'insert', 'dup' and 'fieldmark' too",
            },
        ],
    },
];

/// The commands that turn records and answers into other texts.
const TEXTS: &[Described<'_>] = &[
    Described {
        name: "convert",
        about: "Print each record as lines: its command and its orders",
        after_help: CONVERT,
        arguments: &[
            Argument {
                name: "back",
                takes: Takes::Nothing,
                help: "Read such lines, and print the records",
            },
            Argument {
                name: "chars",
                takes: Takes::Nothing,
                help: "Print texts as characters between quotes; with --back read them",
            },
        ],
    },
    Described {
        name: "draft",
        about: "Print a layout for the screen that the records leave",
        after_help: DRAFT,
        arguments: &[
            Argument {
                name: "turns",
                takes: Takes::NothingWithout(&["map"]),
                help: "Draft a layout for each turn of a dialogue, with lines 'turn' between the records",
            },
            Argument {
                name: "out",
                takes: Takes::ValueWith("FOLDER", "turns", &["map"]),
                help: "With --turns: write the layouts to turn-0.toml, turn-1.toml and so on in this folder",
            },
            Argument {
                name: "map",
                takes: Takes::File,
                help: "Draft a layout of a map of this BMS source, in place of records",
            },
            Argument {
                name: "map-name",
                takes: Takes::ValueWith("NAME", "map", &[]),
                help: "With --map: the map of this name",
            },
            Argument {
                name: "freekb",
                takes: Takes::NothingWith("map", &[]),
                help: WITH_FREEKB_HELP,
            },
            Argument {
                name: "frset",
                takes: Takes::NothingWith("map", &[]),
                help: WITH_FRSET_HELP,
            },
        ],
    },
    Described {
        name: "bind",
        about: "Print the fields of each answer, by the names of a layout",
        after_help: BIND,
        arguments: &[
            Argument {
                name: "LAYOUT",
                takes: Takes::Operands,
                help: LAYOUT_HELP,
            },
            Argument {
                name: "text",
                takes: Takes::Nothing,
                help: "Print fields as text, and not in hexadecimal",
            },
            Argument {
                name: "turns",
                takes: Takes::Nothing,
                help: "Take a layout for each turn, with lines 'turn' between the answers",
            },
        ],
    },
    Described {
        name: "records",
        about: "Print the records of a traced or captured session",
        after_help: RECORDS,
        arguments: &[
            Argument {
                name: "from",
                takes: Takes::OneOf("SOURCE", SOURCES, "trace"),
                help: "Where the lines come from: a trace, a captured stream, or a terminal's buffer",
            },
            Argument {
                name: "answers",
                takes: Takes::Nothing,
                help: "Print what the terminal sent, and not the host",
            },
            Argument {
                name: "turns",
                takes: Takes::Nothing,
                help: "Print a line 'turn' wherever the operator answered, as talk takes it",
            },
            Argument {
                name: "turn",
                takes: Takes::CountWithout("K", "turns"),
                help: "Print the records up to turn K, counted from 0, or the answers of it",
            },
            Argument {
                name: "size",
                takes: Takes::Nothing,
                help: "Print the sizes of the traced terminal before the first record, as show takes them",
            },
            Argument {
                name: "all",
                takes: Takes::Nothing,
                help: "Print structured fields as records too",
            },
        ],
    },
];

/// The commands over the net.
const SESSIONS: &[Described<'_>] = &[
    Described {
        name: "serve",
        about: "Serve the screen to terminals over TCP, and print what they send",
        after_help: SERVE,
        arguments: &[
            Argument {
                name: "LAYOUT",
                takes: Takes::Optional,
                help: LAYOUT_HELP,
            },
            Argument {
                name: "turns",
                takes: Takes::FileAlone(&["LAYOUT", "any"]),
                help: "Serve the application of this manifest (docs/SESSIONS.md)",
            },
            Argument {
                name: "any",
                takes: Takes::NothingWith("records", &["LAYOUT"]),
                help: "Serve records whatever they are, of which nothing is checked",
            },
            Argument {
                name: "records",
                takes: Takes::ValueWith("FILE", "any", &[]),
                help: "With --any: the records, and the sizes if a line 'size' comes first",
            },
            Argument {
                name: "raw",
                takes: Takes::Nothing,
                help: "Print the bytes of each answer too, as 'sent HEX'",
            },
            Argument {
                name: "port",
                takes: Takes::Number("P", 65535),
                help: "The port that is listened at: 1 to 65535",
            },
            Argument {
                name: "count",
                takes: Takes::AnyCount("N", 1000),
                help: "How many terminals are served: 1 to 1000, or 0 for any number",
            },
            Argument {
                name: "at-once",
                takes: Takes::UpTo("M", 1000),
                help: "How many terminals are served at once: 1 to 1000",
            },
            Argument {
                name: "answers",
                takes: Takes::UpTo("N", 65535),
                help: "End after so many terminals answered: 1 to 65535",
            },
            Argument {
                name: "idle",
                takes: Takes::UpTo("SECONDS", 65535),
                help: "End a terminal of which nothing came for so long: 1 to 65535",
            },
            Argument {
                name: "per-second",
                takes: Takes::UpTo("N", 1000),
                help: "Accept at most so many terminals of one address in a second: 1 to 1000",
            },
            Argument {
                name: "listen",
                takes: Takes::Text("ADDRESS", "127.0.0.1"),
                help: "The address that is listened at",
            },
        ],
    },
    Described {
        name: "attach",
        about: "Attach a terminal to a host over TCP, press keys, and print a report",
        after_help: ATTACH,
        arguments: &[
            Argument {
                name: "HOST",
                takes: Takes::Operand,
                help: "The host's name or address",
            },
            Argument {
                name: "KEYS",
                takes: Takes::Operand,
                help: KEYS_HELP,
            },
            Argument {
                name: "strokes",
                takes: Takes::Nothing,
                help: "Take the lines 'string', 'insert', 'dup' and 'fieldmark' too",
            },
            Argument {
                name: "port",
                takes: Takes::Number("P", 65535),
                help: "The host's port: 1 to 65535",
            },
            Argument {
                name: "device",
                takes: Takes::Text("NAME", "IBM-3278-2"),
                help: DEVICE_HELP,
            },
            Argument {
                name: "tolerant",
                takes: Takes::Nothing,
                help: "Get through to hosts that do otherwise than the profile, and press keys where the screen has an input",
            },
            Argument {
                name: "expect",
                takes: Takes::NumberWith("N", "tolerant"),
                help: "Status 1 where fewer answers are sent, or a key is inhibited: 1 to 65535",
            },
            Argument {
                name: "timeout",
                takes: Takes::NumberWith("SECONDS", "tolerant"),
                help: "How long a wait for the host takes at most: 1 to 65535",
            },
        ],
    },
    Described {
        name: "script",
        about: "Work a terminal by lines of actions, in the language of s3270",
        after_help: SCRIPT,
        arguments: &[
            Argument {
                name: "HOST",
                takes: Takes::Optional,
                help: "The host that is connected first, as HOST or HOST:PORT",
            },
            Argument {
                name: "device",
                takes: Takes::Text("NAME", "IBM-3278-2"),
                help: DEVICE_HELP,
            },
            Argument {
                name: "code-page",
                takes: Takes::OneOf("PAGE", CODE_PAGES, "bracket"),
                help: "The host's characters",
            },
            Argument {
                name: "layouts",
                takes: Takes::Value("DIR"),
                help: "Judge each screen on which a key sends, by the layout of this folder that it matches",
            },
            Argument {
                name: "report",
                takes: Takes::ValueWith("FILE", "layouts", &[]),
                help: "With --layouts: the file of the report, in place of standard error",
            },
            Argument {
                name: "report-format",
                takes: Takes::WordWith("FORM", REPORT_FORMS, "layouts"),
                help: "With --layouts: how the screens are reported",
            },
        ],
    },
    Described {
        name: "tap",
        about: "Stand between terminals and a host, hand every byte on, and print the session as records and turns",
        after_help: TAP,
        arguments: &[
            Argument {
                name: "HOST",
                takes: Takes::Operand,
                help: "The name or address of the host that is called for each terminal",
            },
            Argument {
                name: "port",
                takes: Takes::Number("P", 65535),
                help: "The host's port: 1 to 65535",
            },
            Argument {
                name: "listen-port",
                takes: Takes::Number("Q", 65535),
                help: "The port that is listened at for terminals: 1 to 65535",
            },
            Argument {
                name: "listen",
                takes: Takes::Text("ADDRESS", "127.0.0.1"),
                help: "The address that is listened at",
            },
            Argument {
                name: "count",
                takes: Takes::UpTo("N", 65535),
                help: "End after so many terminals: 1 to 65535; without it, go on until it is ended",
            },
            Argument {
                name: "layouts",
                takes: Takes::Value("FOLDER"),
                help: "Judge each screen that the terminal answers, by the layout of this folder that it matches",
            },
            Argument {
                name: "out",
                takes: Takes::Value("FOLDER"),
                help: "Leave each new screen in this folder, as screen-N.hex and its draft screen-N.toml",
            },
        ],
    },
];

/// An operand, which must be given.
fn operand<'a>(alloc: Global, name: &'a str) -> Arg<'a> {
    Arg::new(alloc, name).required(true)
}

/// An option that is there or not.
fn flag<'a>(alloc: Global, name: &'a str) -> Arg<'a> {
    Arg::new(alloc, name).long(name).action(ArgAction::SetTrue)
}

/// An option with a value of this name.
fn option<'a>(alloc: Global, name: &'a str, value: &'a str) -> Arg<'a> {
    Arg::new(alloc, name).long(name).value_name(value)
}

/// An option that has a value where none is given.
fn with_default<'a>(alloc: Global, name: &'a str, value: &'a str, text: &'a str) -> Arg<'a> {
    option(alloc, name, value).default_value(text)
}

/// An option with a number from 1 to this one, which must be given.
fn number<'a>(alloc: Global, name: &'a str, value: &'a str, most: i64) -> Arg<'a> {
    option(alloc, name, value)
        .required(true)
        .value_parser(clap::value_parser!(u16).range(1..=most))
}

/// An option with a number from 0 to this one, which must be given.
fn any_count<'a>(alloc: Global, name: &'a str, value: &'a str, most: i64) -> Arg<'a> {
    option(alloc, name, value)
        .required(true)
        .value_parser(clap::value_parser!(u16).range(0..=most))
}

/// An option with a number from 1 to this one.
fn up_to<'a>(alloc: Global, name: &'a str, value: &'a str, most: i64) -> Arg<'a> {
    option(alloc, name, value).value_parser(clap::value_parser!(u16).range(1..=most))
}

/// An option with a number from 1 to 65,535, which goes with this other one.
fn number_with<'a>(
    alloc: Global,
    name: &'a str,
    value: &'a str,
    other: &'a str,
) -> Result<Arg<'a>, AllocError> {
    option(alloc, name, value)
        .value_parser(clap::value_parser!(u16).range(1..=65535))
        .requires_arg(other)
}

/// An option with a number from 0 to 65,535, which conflicts with this other one.
fn count_without<'a>(
    alloc: Global,
    name: &'a str,
    value: &'a str,
    other: &'a str,
) -> Result<Arg<'a>, AllocError> {
    option(alloc, name, value)
        .value_parser(clap::value_parser!(u16).range(0..=65535))
        .conflicts_with(other)
}

/// An argument that conflicts with these others.
fn alone<'a>(mut argument: Arg<'a>, others: &[&'a str]) -> Result<Arg<'a>, AllocError> {
    for other in others {
        argument = argument.conflicts_with(*other)?;
    }
    Ok(argument)
}

/// An argument, without its help.
fn bare<'a>(alloc: Global, name: &'a str, takes: Takes<'a>) -> Result<Arg<'a>, AllocError> {
    match takes {
        Takes::Operand => Ok(operand(alloc, name)),
        Takes::Operands => Ok(operand(alloc, name).num_args(1..)),
        Takes::Nothing => Ok(flag(alloc, name)),
        Takes::File => Ok(option(alloc, name, "FILE")),
        Takes::FileWithout(other) => option(alloc, name, "FILE").conflicts_with(other),
        Takes::OneOf(value, words, text) => {
            Ok(with_default(alloc, name, value, text).value_parser(words))
        }
        Takes::Text(value, text) => Ok(with_default(alloc, name, value, text)),
        Takes::Number(value, most) => Ok(number(alloc, name, value, most)),
        Takes::AnyCount(value, most) => Ok(any_count(alloc, name, value, most)),
        Takes::UpTo(value, most) => Ok(up_to(alloc, name, value, most)),
        Takes::NumberWith(value, other) => number_with(alloc, name, value, other),
        Takes::CountWithout(value, other) => count_without(alloc, name, value, other),
        Takes::Optional => Ok(Arg::new(alloc, name)),
        Takes::Value(value) => Ok(option(alloc, name, value)),
        Takes::WordWith(value, words, other) => option(alloc, name, value)
            .value_parser(words)
            .requires_arg(other),
        Takes::FileAlone(others) => alone(option(alloc, name, "FILE"), others),
        Takes::ValueWith(value, other, others) => {
            alone(option(alloc, name, value).requires_arg(other)?, others)
        }
        Takes::NothingWithout(others) => alone(flag(alloc, name), others),
        Takes::NothingWith(other, others) => alone(flag(alloc, name).requires_arg(other)?, others),
    }
}

fn with_help<'a>(alloc: Global, argument: &Argument<'a>) -> Result<Arg<'a>, AllocError> {
    Ok(bare(alloc, argument.name, argument.takes)?.help(argument.help))
}

/// A command without its arguments.
fn named<'a>(alloc: Global, described: &Described<'a>) -> Command<'a> {
    Command::new(alloc, described.name)
        .about(described.about)
        .after_help(described.after_help)
}

fn command<'a>(alloc: Global, described: &Described<'a>) -> Result<Command<'a>, AllocError> {
    let mut command = named(alloc, described);
    for each in described.arguments {
        command = command.arg(with_help(alloc, each)?)?;
    }
    Ok(command)
}

/// The program, before its commands.
fn program<'a>(alloc: Global) -> Command<'a> {
    Command::new(alloc, "term3270")
        .version(VERSION)
        .about(
            "Shows, checks, converts and serves 3270 screens: records in hexadecimal, one a line, from standard input",
        )
        .after_help(STATUSES)
}

/// A program with commands.
fn with_commands<'a>(
    alloc: Global,
    mut program: Command<'a>,
    commands: &[Described<'a>],
) -> Result<Command<'a>, AllocError> {
    for described in commands {
        program = program.subcommand(command(alloc, described)?)?;
    }
    Ok(program)
}

fn with_screens<'a>(alloc: Global, program: Command<'a>) -> Result<Command<'a>, AllocError> {
    with_commands(alloc, program, SCREENS)
}

fn with_dialogues<'a>(alloc: Global, program: Command<'a>) -> Result<Command<'a>, AllocError> {
    with_commands(alloc, program, DIALOGUES)
}

fn with_texts<'a>(alloc: Global, program: Command<'a>) -> Result<Command<'a>, AllocError> {
    with_commands(alloc, program, TEXTS)
}

fn with_sessions<'a>(alloc: Global, program: Command<'a>) -> Result<Command<'a>, AllocError> {
    with_commands(alloc, program, SESSIONS)
}

/// The program with all its commands.
fn whole<'a>(alloc: Global) -> Result<Command<'a>, AllocError> {
    let shows = with_screens(alloc, program(alloc))?;
    let checks = with_dialogues(alloc, shows)?;
    let converts = with_texts(alloc, checks)?;
    with_sessions(alloc, converts)
}

/// The words of the command line, parsed.
pub(crate) fn parsed<'a>(alloc: Global, words: &'a [String]) -> Result<ArgMatches<'a>, Error> {
    whole(alloc)?.try_get_matches_from(words)
}
