//! The commands for C: each from texts to a text in the caller's buffer, the whole text's length, and the status.
//! `include/takvorn.h` declares them. The caller passes nothing for `alloc`; a slice is a pointer and a length.
#![tactic(auto)]

ghost use Rattle.std.specs.Prelude.{◌≡◌, map, pos};
ghost use Rattle.cli_binds.specs.Bind.{printed_bind};
ghost use Rattle.cli_commands.specs.Back.{printed_back};
ghost use Rattle.cli_commands.specs.Check.{printed_check};
ghost use Rattle.cli_commands.specs.Convert.{printed_convert};
ghost use Rattle.cli_commands.specs.Press.{printed_press};
ghost use Rattle.cli_commands.specs.Show.{printed_show};
ghost use Rattle.cli_commands.specs.Talk.{printed_talk};
ghost use Rattle.cli_drafts.specs.Draft.{printed_draft};
ghost use Rattle.cli_findings.specs.Origins.{printed_origins};
ghost use Rattle.cli_findings.specs.Report.{printed_report};
ghost use Rattle.cli_pictures.specs.Picture.{printed_picture};
ghost use Rattle.cli_pictures.specs.Pressed.{printed_pressed};
ghost use Rattle.cli_maps.specs.Asked.{as_text, name_in};
ghost use Rattle.cli_maps.specs.Printed.{printed_check_map, printed_map};
ghost use Rattle.takvorn_c.specs.Left.{Leaves, LeavesRecords, asked_of, control_of, demos_of, drawing_of, form_of, map_form_of, name_of};

mod held;
mod judged;
mod left;
mod session;
mod terminal;

use bms_map::Control;
use cli_binds::{Form, bind_texts};
use cli_commands::{
    Demos, check_texts, convert_back_text, convert_text, press_texts, show_text, talk_texts,
};
use cli_drafts::draft_text;
use cli_findings::{Pen, Report, origins_text, report_texts};
use cli_maps::{
    Asked as MapsAsked, Form as MapForm, Report as MapReport, check_map_text, map_text,
};
use cli_pictures::{Drawing, picture_text, pressed_text};
use cli_traces::{Asked, Source, records_text};
use left::{leave, leave_records};
use std::alloc::Global;
use tn_traces::Side;

fn demos_of(printed: bool) -> Demos
    ensures { result ≡ demos_of printed }
{
    if printed {
        Demos::Printed
    } else {
        Demos::Omitted
    }
}

fn form_of(text: bool) -> Form
    ensures { result ≡ form_of text }
{
    if text { Form::Text } else { Form::Hexadecimal }
}

fn drawing_of(json: bool) -> Drawing
    ensures { result ≡ drawing_of json }
{
    if json { Drawing::Json } else { Drawing::Svg }
}

fn asked_of(stream: bool, answers: bool) -> Asked
    ensures { result ≡ asked_of stream answers }
{
    let source = if stream {
        Source::Stream
    } else {
        Source::Trace
    };
    let side = if answers { Side::Terminal } else { Side::Host };
    Asked::records(source, side)
}

/// `show`: the screen that records leave.
#[unsafe(no_mangle)]
pub extern "C" fn takvorn_show(
    alloc: Global,
    records: &[u8],
    out: &mut [u8],
    needed: &mut usize,
) -> i32
    ensures { Leaves (printed_show records.now) out.old out.new needed.new result }
{
    i32::from(leave(alloc, show_text(alloc, records), out, needed))
}

/// `show` as a drawing in SVG.
#[unsafe(no_mangle)]
pub extern "C" fn takvorn_show_svg(
    alloc: Global,
    records: &[u8],
    out: &mut [u8],
    needed: &mut usize,
) -> i32
    ensures { Leaves (printed_picture Drawing.Svg records.now) out.old out.new needed.new
        result }
{
    let answer = picture_text(alloc, Drawing::Svg, records);
    i32::from(leave(alloc, answer, out, needed))
}

/// `show` as a page.
#[unsafe(no_mangle)]
pub extern "C" fn takvorn_show_html(
    alloc: Global,
    records: &[u8],
    out: &mut [u8],
    needed: &mut usize,
) -> i32
    ensures { Leaves (printed_picture Drawing.Html records.now) out.old out.new needed.new
        result }
{
    let answer = picture_text(alloc, Drawing::Html, records);
    i32::from(leave(alloc, answer, out, needed))
}

/// `show` with the looks of its cells, for a terminal.
#[unsafe(no_mangle)]
pub extern "C" fn takvorn_show_colored(
    alloc: Global,
    records: &[u8],
    out: &mut [u8],
    needed: &mut usize,
) -> i32
    ensures { Leaves (printed_picture Drawing.Colored records.now) out.old out.new needed.new
        result }
{
    let answer = picture_text(alloc, Drawing::Colored, records);
    i32::from(leave(alloc, answer, out, needed))
}

/// `show` as a line of JSON.
#[unsafe(no_mangle)]
pub extern "C" fn takvorn_show_json(
    alloc: Global,
    records: &[u8],
    out: &mut [u8],
    needed: &mut usize,
) -> i32
    ensures { Leaves (printed_picture Drawing.Json records.now) out.old out.new needed.new
        result }
{
    let answer = picture_text(alloc, Drawing::Json, records);
    i32::from(leave(alloc, answer, out, needed))
}

/// `check`: `yes`, or what stands against records and a layout, with demos where they are asked for.
#[unsafe(no_mangle)]
pub extern "C" fn takvorn_check(
    alloc: Global,
    layout: &[u8],
    records: &[u8],
    demos: bool,
    out: &mut [u8],
    needed: &mut usize,
) -> i32
    ensures { Leaves (printed_check (demos_of demos) layout.now records.now) out.old out.new
        needed.new result }
{
    let answer = check_texts(alloc, layout, records, demos_of(demos));
    i32::from(leave(alloc, answer, out, needed))
}

/// `check` as lines of JSON, with what the keys of findings send.
#[unsafe(no_mangle)]
pub extern "C" fn takvorn_check_json(
    alloc: Global,
    layout: &[u8],
    records: &[u8],
    out: &mut [u8],
    needed: &mut usize,
) -> i32
    ensures { Leaves (printed_report Pen.Ignored Report.Json layout.now records.now)
        out.old out.new needed.new
        result }
{
    let answer = report_texts(alloc, Pen::Ignored, Report::Json, layout, records);
    i32::from(leave(alloc, answer, out, needed))
}

/// `talk`: `yes`, or what stands against the turns of a dialogue, each with its layout.
#[unsafe(no_mangle)]
pub extern "C" fn takvorn_talk(
    alloc: Global,
    layouts: &[&[u8]],
    records: &[u8],
    out: &mut [u8],
    needed: &mut usize,
) -> i32
    ensures { Leaves (printed_talk (map (λ layout. layout.now) layouts.now) records.now) out.old
        out.new needed.new result }
{
    i32::from(leave(alloc, talk_texts(alloc, layouts, records), out, needed))
}

/// `press`: what keys do on the screen that records leave, and the bytes that go out.
#[unsafe(no_mangle)]
pub extern "C" fn takvorn_press(
    alloc: Global,
    records: &[u8],
    keys: &[u8],
    out: &mut [u8],
    needed: &mut usize,
) -> i32
    ensures { Leaves (printed_press records.now keys.now) out.old out.new needed.new result }
{
    i32::from(leave(alloc, press_texts(alloc, records, keys), out, needed))
}

/// `convert`: records as order lines.
#[unsafe(no_mangle)]
pub extern "C" fn takvorn_convert(
    alloc: Global,
    records: &[u8],
    out: &mut [u8],
    needed: &mut usize,
) -> i32
    ensures { Leaves (printed_convert records.now) out.old out.new needed.new result }
{
    i32::from(leave(alloc, convert_text(alloc, records), out, needed))
}

/// `convert --back`: order lines as records.
#[unsafe(no_mangle)]
pub extern "C" fn takvorn_convert_back(
    alloc: Global,
    lines: &[u8],
    out: &mut [u8],
    needed: &mut usize,
) -> i32
    ensures { Leaves (printed_back lines.now) out.old out.new needed.new result }
{
    i32::from(leave(alloc, convert_back_text(alloc, lines), out, needed))
}

/// `draft`: a layout for the screen that records leave.
#[unsafe(no_mangle)]
pub extern "C" fn takvorn_draft(
    alloc: Global,
    records: &[u8],
    out: &mut [u8],
    needed: &mut usize,
) -> i32
    ensures { Leaves (printed_draft records.now) out.old out.new needed.new result }
{
    i32::from(leave(alloc, draft_text(alloc, records), out, needed))
}

/// `bind`: the fields of answers by the names of a layout, as text where that is asked for.
#[unsafe(no_mangle)]
pub extern "C" fn takvorn_bind(
    alloc: Global,
    layout: &[u8],
    answers: &[u8],
    text: bool,
    out: &mut [u8],
    needed: &mut usize,
) -> i32
    ensures { Leaves (printed_bind (form_of text) layout.now answers.now) out.old out.new
        needed.new result }
{
    let answer = bind_texts(alloc, layout, answers, form_of(text));
    i32::from(leave(alloc, answer, out, needed))
}

/// The screen that keys leave, pressed in turn on the one that records leave: as a line of JSON, or as a drawing in SVG.
#[unsafe(no_mangle)]
pub extern "C" fn takvorn_show_pressed(
    alloc: Global,
    records: &[u8],
    keys: &[u8],
    json: bool,
    out: &mut [u8],
    needed: &mut usize,
) -> i32
    ensures { Leaves (printed_pressed (drawing_of json) records.now keys.now) out.old out.new
        needed.new result }
{
    let answer = pressed_text(alloc, drawing_of(json), records, keys);
    i32::from(leave(alloc, answer, out, needed))
}

/// Which order of the records wrote last at each position.
#[unsafe(no_mangle)]
pub extern "C" fn takvorn_origins(
    alloc: Global,
    layout: &[u8],
    records: &[u8],
    out: &mut [u8],
    needed: &mut usize,
) -> i32
    ensures { Leaves (printed_origins layout.now records.now) out.old out.new needed.new result }
{
    i32::from(leave(alloc, origins_text(alloc, layout, records), out, needed))
}

/// The records of a side, and the status.
fn records_left(
    alloc: Global,
    trace: &[u8],
    stream: bool,
    answers: bool,
    out: &mut [u8],
    needed: &mut usize,
) -> u8
    ensures { LeavesRecords (asked_of stream answers) trace.now out.old out.new needed.new
        (pos result) }
{
    let asked = asked_of(stream, answers);
    let told = records_text(alloc, asked, trace);
    leave_records(told, out, needed)
}

/// `records`: the records of a side of a session that was traced, or captured as a stream.
#[unsafe(no_mangle)]
pub extern "C" fn takvorn_records(
    alloc: Global,
    trace: &[u8],
    stream: bool,
    answers: bool,
    out: &mut [u8],
    needed: &mut usize,
) -> i32
    ensures { LeavesRecords (asked_of stream answers) trace.now out.old out.new needed.new result }
{
    i32::from(records_left(alloc, trace, stream, answers, out, needed))
}

/// The map of a name; all where it is empty.
fn name_of(name: &[u8]) -> Option<&[u8]>
    ensures { name_in result ≡ name_of name.now }
{
    if name.is_empty() { None } else { Some(name) }
}

fn map_form_of(layout: bool) -> MapForm
    ensures { result ≡ map_form_of layout }
{
    if layout {
        MapForm::Layout
    } else {
        MapForm::Records
    }
}

fn control_of(freekb: bool, frset: bool) -> Control
    ensures { result ≡ control_of freekb frset }
{
    Control {
        free_keyboard: freekb,
        reset_modified: frset,
    }
}

/// What is asked of maps.
fn maps_asked(name: &[u8], freekb: bool, frset: bool) -> MapsAsked<'_>
    ensures name { name_in result.name ≡ name_of name.now }
    ensures control { result.control ≡ control_of freekb frset }
{
    MapsAsked {
        name: name_of(name),
        control: control_of(freekb, frset),
    }
}

/// What `map` answers, and the status.
fn map_left(
    alloc: Global,
    source: &[u8],
    asked: MapsAsked<'_>,
    form: MapForm,
    out: &mut [u8],
    needed: &mut usize,
) -> u8
    ensures { Leaves (printed_map form (name_in asked.entry.name) asked.entry.control source.now)
        out.old out.new needed.new (pos result) }
{
    let answer = map_text(alloc, source, asked, form);
    leave(alloc, answer, out, needed)
}

/// What `check --map` answers, and the status.
fn check_left(
    alloc: Global,
    source: &[u8],
    asked: MapsAsked<'_>,
    out: &mut [u8],
    needed: &mut usize,
) -> u8
    ensures { Leaves (printed_check_map as_text (name_in asked.entry.name) asked.entry.control
        source.now) out.old out.new needed.new (pos result) }
{
    let answer = check_map_text(alloc, MapReport::Text, source, asked);
    leave(alloc, answer, out, needed)
}

/// `map`: the records of BMS maps, or with `layout` the layout of one.
#[unsafe(no_mangle)]
pub extern "C" fn takvorn_map(
    alloc: Global,
    source: &[u8],
    name: &[u8],
    layout: bool,
    freekb: bool,
    frset: bool,
    out: &mut [u8],
    needed: &mut usize,
) -> i32
    ensures { Leaves (printed_map (map_form_of layout) (name_of name.now)
        (control_of freekb frset) source.now) out.old out.new needed.new result }
{
    let form = map_form_of(layout);
    i32::from(map_left(
        alloc,
        source,
        maps_asked(name, freekb, frset),
        form,
        out,
        needed,
    ))
}

/// `check --map`: for each map `yes`, or what stands against it.
#[unsafe(no_mangle)]
pub extern "C" fn takvorn_check_map(
    alloc: Global,
    source: &[u8],
    name: &[u8],
    freekb: bool,
    frset: bool,
    out: &mut [u8],
    needed: &mut usize,
) -> i32
    ensures { Leaves (printed_check_map as_text (name_of name.now) (control_of freekb frset)
        source.now) out.old out.new needed.new result }
{
    i32::from(check_left(alloc, source, maps_asked(name, freekb, frset), out, needed))
}
