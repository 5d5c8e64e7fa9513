//! What the words of the command line ask for: their command, with its options.

ghost use Rattle.std.specs.Prelude.{◌≡◌, true, false, is_some, option_map};
ghost use Rattle.clap.specs.Words.{first_of, found_of, rows_of, subcommand_rows_of};
ghost use Rattle.cli_words.specs.Asked.{AreDemos, AreKeyLines, IsServe, AsksFor, IsAttach, IsCheck, IsDrawn, IsForm, IsConvert, IsOption, IsPen, IsPress, IsShow, IsBind, IsDraft, IsDrafted, IsDraftedMap, IsRendering, IsShownMap, IsReportForm, IsSide, IsSource, IsWhen, IsWithLayout, IsMap, IsMapForm, IsMapCheck, IsLayoutCheck, IsTextCheck, IsTextTalk, IsTalk, IsSuite, IsSuiteForm, AreControls, AreTraced, AreTurns, AreBuffers, AreNoTracedWords, AreSizes, AreTracedWords, IsRecords, IsTraced};
ghost use Rattle.cli_words.specs.Values.{IsNumber, IsPath, IsText};

use crate::many::{Many, has_many_words, many_of};
use crate::script::{ScriptAsked, script_of};
use crate::tap::{TapAsked, tap_of};
use bms_map::Control;
use clap::ArgMatches;
use cli_binds::Form;
use cli_buffers::SizesLine;
use cli_commands::Demos;
use cli_findings::Pen;
use cli_maps::{Form as MapForm, Rendering};
use cli_pictures::{Annotated, Drawing};
use cli_reports::TalkForm;
use cli_suites::Form as SuiteForm;
use cli_traces::{Asked as Traced, Source, Turns};
use tn_traces::Side;

/// When the looks of a screen's cells are printed.
#[derive(Clone, Copy)]
pub enum When {
    /// Where standard output is a terminal, and the environment doesn't say `NO_COLOR`.
    Auto,
    Always,
    Never,
}

/// A form of `check` that tools read.
#[derive(Clone, Copy)]
pub enum ReportForm {
    Json,
    Sarif,
}

/// Which lines name what an operator does.
#[derive(Clone, Copy)]
pub enum KeyLines {
    Keys,
    /// Those, and the lines of insert mode, duplicate and field mark.
    Strokes,
}

/// A command, with the files, the options and the place on the net that it was given.
#[derive(Clone, Copy)]
pub enum Asked<'a> {
    Show {
        color: When,
    },
    Draw {
        drawing: Drawing,
    },
    Annotate {
        layout: &'a str,
        form: Annotated,
    },
    /// A layout, and a form that doesn't draw it.
    Undrawn,
    Check {
        layout: &'a str,
        records: Option<&'a str>,
        demos: Demos,
        pen: Pen,
    },
    Report {
        layout: &'a str,
        records: Option<&'a str>,
        form: ReportForm,
        pen: Pen,
    },
    /// `check`, with lines under each finding.
    Explain {
        layout: &'a str,
        records: Option<&'a str>,
        pen: Pen,
    },
    Talk,
    /// `talk` for tools, or with lines under each finding.
    ReportTalk {
        form: TalkForm,
    },
    /// `talk` as a log.
    LogTalk,
    Press {
        keys: &'a str,
    },
    Strike {
        strokes: &'a str,
    },
    Convert,
    /// `convert`, texts by their characters.
    ConvertCharacters,
    ConvertBack,
    /// `convert --back`, texts by characters or by digits.
    ConvertBackCharacters,
    Draft,
    /// A draft of each turn, in a file of a folder where one is named.
    DraftTurns {
        folder: Option<&'a str>,
    },
    Bind {
        layout: &'a str,
        form: Form,
    },
    /// The answers of each turn, by its layout.
    BindTurns {
        form: Form,
    },
    Records {
        traced: Traced,
    },
    /// Turns of a stream, which shows one side.
    OneSided,
    /// The records that leave the screens of a terminal's buffer.
    Buffers {
        sizes: SizesLine,
    },
    /// What only traces and streams have, asked of a buffer.
    OneScreen,
    Serve {
        layout: &'a str,
        address: &'a str,
        port: u16,
        count: u16,
    },
    /// Terminals at once, or with limits.
    ServeMany {
        layout: &'a str,
        address: &'a str,
        port: u16,
        many: Many,
    },
    AttachTolerant {
        host: &'a str,
        keys: &'a str,
        lines: KeyLines,
        port: u16,
        device: &'a str,
        /// How many answers are expected; 0 is any number.
        expect: u16,
        /// The seconds that a wait takes at most; 0 is no limit.
        timeout: u16,
    },
    Attach {
        host: &'a str,
        keys: &'a str,
        lines: KeyLines,
        port: u16,
        device: &'a str,
    },
    Script(ScriptAsked<'a>),
    Tap(TapAsked<'a>),
    Map {
        source: &'a str,
        name: Option<&'a str>,
        control: Control,
        form: MapForm,
    },
    /// The verdict on maps, as text where no other form is named.
    CheckMap {
        source: &'a str,
        name: Option<&'a str>,
        control: Control,
        form: Option<ReportForm>,
    },
    RenderMap {
        source: &'a str,
        name: Option<&'a str>,
        control: Control,
        rendering: Rendering,
    },
    /// A manifest, or a folder, and the one screen that is asked for.
    Suite {
        path: &'a str,
        only: Option<&'a str>,
        form: SuiteForm,
    },
    /// `check` without a layout, and without the source of maps.
    NoLayout,
}

impl<'a> Asked<'a> {
    ghost use Rattle.clap.specs.Words.{subcommand_rows_of};
    ghost use Rattle.cli_words.specs.Asked.{Asks};

    /// What parsed words ask for. The default command is `show`.
    pub fn from_matches(matches: &ArgMatches<'a>) -> Asked<'a>
        ensures { Asks (subcommand_rows_of matches.now) result }
    {
        match named_in(matches) {
            Some((name, words)) => command_of(name, words),
            None => Asked::Show { color: When::Auto },
        }
    }
}

/// The command that is named, with its words.
fn named_in<'m, 'a>(matches: &'m ArgMatches<'a>) -> Option<(&'a str, &'m ArgMatches<'a>)>
    ensures { option_map (λ p. (p.0.now, rows_of (found_of p.1.now))) result
        ≡ subcommand_rows_of matches.now }
{
    matches.subcommand()
}

fn attach_of<'a>(words: &ArgMatches<'a>) -> Asked<'a>
    ensures { IsAttach (rows_of (found_of words.now)) result }
{
    if is_given(words, "tolerant") {
        return Asked::AttachTolerant {
            host: text_in(words, "HOST"),
            keys: text_in(words, "KEYS"),
            lines: key_lines_in(words),
            port: number_in(words, "port"),
            device: text_in(words, "device"),
            expect: number_in(words, "expect"),
            timeout: number_in(words, "timeout"),
        };
    }
    Asked::Attach {
        host: text_in(words, "HOST"),
        keys: text_in(words, "KEYS"),
        lines: key_lines_in(words),
        port: number_in(words, "port"),
        device: text_in(words, "device"),
    }
}

fn serve_of<'a>(words: &ArgMatches<'a>) -> Asked<'a>
    ensures { IsServe (rows_of (found_of words.now)) result }
{
    let many = many_of(words);
    if many.count == 0 || has_many_words(words) {
        return Asked::ServeMany {
            layout: text_in(words, "LAYOUT"),
            address: text_in(words, "listen"),
            port: number_in(words, "port"),
            many,
        };
    }
    Asked::Serve {
        layout: text_in(words, "LAYOUT"),
        address: text_in(words, "listen"),
        port: number_in(words, "port"),
        count: many.count,
    }
}

fn command_of<'a>(name: &str, words: &ArgMatches<'a>) -> Asked<'a>
    ensures { AsksFor name.now (rows_of (found_of words.now)) result }
{
    match name {
        "show" => show_of(words),
        "check" => check_of(words),
        "talk" => talk_of(words),
        "press" => press_of(words),
        "convert" => convert_of(words),
        "draft" => draft_of(words),
        "bind" => bind_of(words),
        "records" => records_of(words),
        "serve" => serve_of(words),
        "attach" => attach_of(words),
        "script" => Asked::Script(script_of(words)),
        "tap" => Asked::Tap(tap_of(words)),
        "suite" => suite_of(words),
        "map" => map_of(words),
        _ => Asked::Show { color: When::Auto },
    }
}

/// The form in which the screen of a map is shown.
fn rendering_in(words: &ArgMatches<'_>) -> Rendering
    ensures { IsRendering (rows_of (found_of words.now)) result }
{
    match text_in(words, "format") {
        "svg" => Rendering::Svg,
        "html" => Rendering::Html,
        "json" => Rendering::Json,
        "screen" => Rendering::Rows,
        _ => Rendering::Text,
    }
}

/// `show` of a map, in the form that is named.
fn shown_map_of<'a>(words: &ArgMatches<'a>) -> Asked<'a>
    ensures { IsShownMap (rows_of (found_of words.now)) result }
{
    Asked::RenderMap {
        source: text_in(words, "map"),
        name: path_in(words, "map-name"),
        control: control_in(words),
        rendering: rendering_in(words),
    }
}

/// `draft` of a map.
fn drafted_map_of<'a>(words: &ArgMatches<'a>) -> Asked<'a>
    ensures { IsDraftedMap (rows_of (found_of words.now)) result }
{
    Asked::RenderMap {
        source: text_in(words, "map"),
        name: path_in(words, "map-name"),
        control: control_in(words),
        rendering: Rendering::Draft,
    }
}

/// `draft`, of a map where a source is named.
fn draft_of<'a>(words: &ArgMatches<'a>) -> Asked<'a>
    ensures { IsDraft (rows_of (found_of words.now)) result }
{
    if is_named(words, "map") {
        drafted_map_of(words)
    } else {
        drafted_of(words)
    }
}

/// `draft` of records, or of those of each turn.
fn drafted_of<'a>(words: &ArgMatches<'a>) -> Asked<'a>
    ensures { IsDrafted (rows_of (found_of words.now)) result }
{
    if is_given(words, "turns") {
        Asked::DraftTurns {
            folder: path_in(words, "out"),
        }
    } else {
        Asked::Draft
    }
}

/// `bind` of answers, or of those of each turn.
fn bind_of<'a>(words: &ArgMatches<'a>) -> Asked<'a>
    ensures { IsBind (rows_of (found_of words.now)) result }
{
    if is_given(words, "turns") {
        Asked::BindTurns {
            form: form_in(words),
        }
    } else {
        Asked::Bind {
            layout: text_in(words, "LAYOUT"),
            form: form_in(words),
        }
    }
}

/// `show`, of a map where a source is named, or with a layout where one is.
fn show_of<'a>(words: &ArgMatches<'a>) -> Asked<'a>
    ensures { IsShow (rows_of (found_of words.now)) result }
{
    if is_named(words, "map") {
        shown_map_of(words)
    } else if is_named(words, "layout") {
        annotate_of(words)
    } else {
        draw_of(words)
    }
}

/// The screen with a layout, in the form that is named.
fn annotate_of<'a>(words: &ArgMatches<'a>) -> Asked<'a>
    ensures { IsWithLayout (rows_of (found_of words.now)) result }
{
    let layout = text_in(words, "layout");
    match text_in(words, "format") {
        "svg" => Asked::Annotate {
            layout,
            form: Annotated::Svg,
        },
        "html" => Asked::Annotate {
            layout,
            form: Annotated::Html,
        },
        _ => Asked::Undrawn,
    }
}

/// The screen, in the form that is named.
fn draw_of<'a>(words: &ArgMatches<'a>) -> Asked<'a>
    ensures { IsDrawn (rows_of (found_of words.now)) result }
{
    match text_in(words, "format") {
        "svg" => Asked::Draw {
            drawing: Drawing::Svg,
        },
        "html" => Asked::Draw {
            drawing: Drawing::Html,
        },
        "json" => Asked::Draw {
            drawing: Drawing::Json,
        },
        "screen" => Asked::Draw {
            drawing: Drawing::Rows,
        },
        _ => Asked::Show {
            color: when_in(words),
        },
    }
}

fn when_in(words: &ArgMatches<'_>) -> When
    ensures { IsWhen (rows_of (found_of words.now)) result }
{
    match text_in(words, "color") {
        "always" => When::Always,
        "never" => When::Never,
        _ => When::Auto,
    }
}

/// What SEND MAP adds.
fn control_in(words: &ArgMatches<'_>) -> Control
    ensures { AreControls (rows_of (found_of words.now)) result }
{
    Control {
        free_keyboard: is_given(words, "freekb"),
        reset_modified: is_given(words, "frset"),
    }
}

fn map_form_in(words: &ArgMatches<'_>) -> MapForm
    ensures { IsMapForm (rows_of (found_of words.now)) result }
{
    if is_given(words, "layout") {
        MapForm::Layout
    } else {
        MapForm::Records
    }
}

fn map_of<'a>(words: &ArgMatches<'a>) -> Asked<'a>
    ensures { IsMap (rows_of (found_of words.now)) result }
{
    Asked::Map {
        source: text_in(words, "FILE"),
        name: path_in(words, "map"),
        control: control_in(words),
        form: map_form_in(words),
    }
}

/// `check`, of maps or with a layout.
fn check_of<'a>(words: &ArgMatches<'a>) -> Asked<'a>
    ensures { IsCheck (rows_of (found_of words.now)) result }
{
    if is_named(words, "map") {
        map_check_of(words)
    } else if is_named(words, "LAYOUT") {
        layout_check_of(words)
    } else {
        Asked::NoLayout
    }
}

/// The form that tools read, where one is named.
fn report_form_in(words: &ArgMatches<'_>) -> Option<ReportForm>
    ensures { IsReportForm (rows_of (found_of words.now)) result }
{
    match text_in(words, "format") {
        "json" => Some(ReportForm::Json),
        "sarif" => Some(ReportForm::Sarif),
        _ => None,
    }
}

/// `check` of maps, in the form that is named.
fn map_check_of<'a>(words: &ArgMatches<'a>) -> Asked<'a>
    ensures { IsMapCheck (rows_of (found_of words.now)) result }
{
    Asked::CheckMap {
        source: text_in(words, "map"),
        name: path_in(words, "map-name"),
        control: control_in(words),
        form: report_form_in(words),
    }
}

/// `check` with a layout, in the form that is named.
fn layout_check_of<'a>(words: &ArgMatches<'a>) -> Asked<'a>
    ensures { IsLayoutCheck (rows_of (found_of words.now)) result }
{
    let layout = text_in(words, "LAYOUT");
    let records = path_in(words, "records");
    match text_in(words, "format") {
        "json" => Asked::Report {
            layout,
            records,
            form: ReportForm::Json,
            pen: pen_in(words),
        },
        "sarif" => Asked::Report {
            layout,
            records,
            form: ReportForm::Sarif,
            pen: pen_in(words),
        },
        _ => text_check_of(words),
    }
}

/// `check` with a layout, as text.
fn text_check_of<'a>(words: &ArgMatches<'a>) -> Asked<'a>
    ensures { IsTextCheck (rows_of (found_of words.now)) result }
{
    let layout = text_in(words, "LAYOUT");
    let records = path_in(words, "records");
    let pen = pen_in(words);
    if is_given(words, "explain") {
        Asked::Explain {
            layout,
            records,
            pen,
        }
    } else {
        Asked::Check {
            layout,
            records,
            demos: demos_in(words),
            pen,
        }
    }
}

fn suite_form_in(words: &ArgMatches<'_>) -> SuiteForm
    ensures { IsSuiteForm (rows_of (found_of words.now)) result }
{
    match text_in(words, "format") {
        "json" => SuiteForm::Json,
        "junit" => SuiteForm::Junit,
        "sarif" => SuiteForm::Sarif,
        _ => SuiteForm::Text,
    }
}

fn suite_of<'a>(words: &ArgMatches<'a>) -> Asked<'a>
    ensures { IsSuite (rows_of (found_of words.now)) result }
{
    Asked::Suite {
        path: text_in(words, "SUITE"),
        only: path_in(words, "only"),
        form: suite_form_in(words),
    }
}

/// `talk` as text.
fn text_talk_of<'a>(words: &ArgMatches<'a>) -> Asked<'a>
    ensures { IsTextTalk (rows_of (found_of words.now)) result }
{
    if is_given(words, "explain") {
        Asked::ReportTalk {
            form: TalkForm::Explained,
        }
    } else {
        Asked::Talk
    }
}

/// `talk`, in the form that is named.
fn talk_of<'a>(words: &ArgMatches<'a>) -> Asked<'a>
    ensures { IsTalk (rows_of (found_of words.now)) result }
{
    match text_in(words, "format") {
        "json" => Asked::ReportTalk {
            form: TalkForm::Json,
        },
        "sarif" => Asked::LogTalk,
        _ => text_talk_of(words),
    }
}

fn demos_in(words: &ArgMatches<'_>) -> Demos
    ensures { AreDemos (rows_of (found_of words.now)) result }
{
    if is_given(words, "demo") {
        Demos::Printed
    } else {
        Demos::Omitted
    }
}

fn pen_in(words: &ArgMatches<'_>) -> Pen
    ensures { IsPen (rows_of (found_of words.now)) result }
{
    if is_given(words, "pen") {
        Pen::Asked
    } else {
        Pen::Ignored
    }
}

fn key_lines_in(words: &ArgMatches<'_>) -> KeyLines
    ensures { AreKeyLines (rows_of (found_of words.now)) result }
{
    if is_given(words, "strokes") {
        KeyLines::Strokes
    } else {
        KeyLines::Keys
    }
}

fn form_in(words: &ArgMatches<'_>) -> Form
    ensures { IsForm (rows_of (found_of words.now)) result }
{
    if is_given(words, "text") {
        Form::Text
    } else {
        Form::Hexadecimal
    }
}

fn source_in(words: &ArgMatches<'_>) -> Source
    ensures { IsSource (rows_of (found_of words.now)) result }
{
    match text_in(words, "from") {
        "stream" => Source::Stream,
        _ => Source::Trace,
    }
}

fn side_in(words: &ArgMatches<'_>) -> Side
    ensures { IsSide (rows_of (found_of words.now)) result }
{
    if is_given(words, "answers") {
        Side::Terminal
    } else {
        Side::Host
    }
}

/// Which turns are printed, and how.
fn turns_in(words: &ArgMatches<'_>) -> Turns
    ensures { AreTurns (rows_of (found_of words.now)) result }
{
    if is_given(words, "turns") {
        Turns::Marked
    } else if is_named(words, "turn") {
        Turns::UpTo(u64::from(number_in(words, "turn")))
    } else {
        Turns::Unmarked
    }
}

/// What is asked of a trace or a stream.
fn traced_in(words: &ArgMatches<'_>) -> Traced
    ensures { AreTraced (rows_of (found_of words.now)) result }
{
    Traced {
        source: source_in(words),
        side: side_in(words),
        turns: turns_in(words),
        all: is_given(words, "all"),
        size: is_given(words, "size"),
    }
}

/// Whether something is asked that only traces and streams have.
fn has_traced_words(words: &ArgMatches<'_>) -> bool
    ensures some { result ≡ true → AreTracedWords (rows_of (found_of words.now)) }
    ensures none { result ≡ false → AreNoTracedWords (rows_of (found_of words.now)) }
{
    is_given(words, "answers")
        || is_given(words, "turns")
        || is_given(words, "all")
        || is_named(words, "turn")
}

fn sizes_in(words: &ArgMatches<'_>) -> SizesLine
    ensures { AreSizes (rows_of (found_of words.now)) result }
{
    if is_given(words, "size") {
        SizesLine::Told
    } else {
        SizesLine::Omitted
    }
}

/// `records` of a terminal's buffer.
fn buffers_of<'a>(words: &ArgMatches<'a>) -> Asked<'a>
    ensures { AreBuffers (rows_of (found_of words.now)) result }
{
    if has_traced_words(words) {
        Asked::OneScreen
    } else {
        Asked::Buffers {
            sizes: sizes_in(words),
        }
    }
}

fn records_of<'a>(words: &ArgMatches<'a>) -> Asked<'a>
    ensures { IsRecords (rows_of (found_of words.now)) result }
{
    match text_in(words, "from") {
        "buffer" => buffers_of(words),
        _ => traced_of(words),
    }
}

/// `records` of a trace or a stream.
fn traced_of<'a>(words: &ArgMatches<'a>) -> Asked<'a>
    ensures { IsTraced (rows_of (found_of words.now)) result }
{
    let traced = traced_in(words);
    if traced.is_one_sided() {
        Asked::OneSided
    } else {
        Asked::Records { traced }
    }
}

fn press_of<'a>(words: &ArgMatches<'a>) -> Asked<'a>
    ensures { IsPress (rows_of (found_of words.now)) result }
{
    if is_given(words, "strokes") {
        Asked::Strike {
            strokes: text_in(words, "KEYS"),
        }
    } else {
        Asked::Press {
            keys: text_in(words, "KEYS"),
        }
    }
}

fn convert_of<'a>(words: &ArgMatches<'a>) -> Asked<'a>
    ensures { IsConvert (rows_of (found_of words.now)) result }
{
    match (is_given(words, "back"), is_given(words, "chars")) {
        (false, false) => Asked::Convert,
        (false, true) => Asked::ConvertCharacters,
        (true, false) => Asked::ConvertBack,
        (true, true) => Asked::ConvertBackCharacters,
    }
}

/// The text that was given for a word; `clap` refuses words without it, or has a default for it.
pub(crate) fn text_in<'a>(words: &ArgMatches<'a>, word: &str) -> &'a str
    ensures { IsText word.now (rows_of (found_of words.now)) result }
{
    match words.get_str(word) {
        Some(text) => text,
        None => "",
    }
}

/// The path that was given for an option, where it was.
pub(crate) fn path_in<'a>(words: &ArgMatches<'a>, option: &str) -> Option<&'a str>
    ensures { IsPath option.now (rows_of (found_of words.now)) result }
{
    words.get_str(option)
}

/// Whether a text was given for a word.
pub(crate) fn is_named(words: &ArgMatches<'_>, word: &str) -> bool
    ensures { result ≡ is_some (first_of word.now (rows_of (found_of words.now))) }
{
    words.get_str(word).is_some()
}

/// The number that was given for a word, or 0; `clap` refuses numbers out of its range, and words without one that is required.
pub(crate) fn number_in(words: &ArgMatches<'_>, word: &str) -> u16
    ensures { IsNumber word.now (rows_of (found_of words.now)) result }
{
    match words.get_one::<u16>(word) {
        Some(number) => number,
        None => 0,
    }
}

fn is_given(words: &ArgMatches<'_>, option: &str) -> bool
    ensures { IsOption option.now (rows_of (found_of words.now)) result }
{
    words.get_flag(option)
}
