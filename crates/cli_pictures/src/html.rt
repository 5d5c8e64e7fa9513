//! A screen as a page.

ghost use Rattle.std.specs.Prelude.{◌≡◌, ◌++◌, OnOk, string_bytes};
ghost use Rattle.cli_pictures.specs.Html.{top_lines, body_lines, end_lines, html_page};
ghost use Rattle.cli_pictures.specs.Annotated.{annotated_page};

use crate::list::push_annotated_svg;
use crate::svg::{push_svg, push_title_line};
use ds_screen::{PlaneCells, Screen};
use scr_check::Finding;
use scr_layout::Entry;
use std::alloc::{AllocError, Global};

#[tactic(auto, unfolding(crate::specs::Html::top_lines))]
fn push_top(out: &mut String) -> Result<(), AllocError>
    ensures { OnOk result (string_bytes out.new ≡ string_bytes out.old ++ top_lines) }
{
    out.push_str("<!DOCTYPE html>\n<html lang=\"en\">\n<head>\n<meta charset=\"utf-8\">\n")
}

#[tactic(auto, unfolding(crate::specs::Html::body_lines))]
fn push_body(out: &mut String) -> Result<(), AllocError>
    ensures { OnOk result (string_bytes out.new ≡ string_bytes out.old ++ body_lines) }
{
    out.push_str("</head>\n<body style=\"background: black\">\n")
}

#[tactic(auto, unfolding(crate::specs::Html::end_lines))]
fn push_end(out: &mut String) -> Result<(), AllocError>
    ensures { OnOk result (string_bytes out.new ≡ string_bytes out.old ++ end_lines) }
{
    out.push_str("</body>\n</html>\n")
}

/// A page with the drawing, on a black ground.
pub(crate) fn push_page(out: &mut String, screen: &Screen<PlaneCells>) -> Result<(), AllocError>
    ensures { OnOk result (string_bytes out.new ≡ string_bytes out.old ++ html_page screen.now) }
{
    push_top(out)?;
    push_title_line(out, screen)?;
    push_body(out)?;
    push_svg(out, screen)?;
    push_end(out)
}

/// A page with the drawing with the names of entries and with findings.
pub(crate) fn push_annotated_page(
    alloc: Global,
    out: &mut String,
    screen: &Screen<PlaneCells>,
    entries: &[Entry],
    findings: &[Finding],
) -> Result<(), AllocError>
    ensures { OnOk result (string_bytes out.new
        ≡ string_bytes out.old ++ annotated_page entries.now findings.now screen.now) }
{
    push_top(out)?;
    push_title_line(out, screen)?;
    push_body(out)?;
    push_annotated_svg(alloc, out, screen, entries, findings)?;
    push_end(out)
}
