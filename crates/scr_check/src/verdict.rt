//! The verdict on records and a layout.

ghost use Rattle.std.specs.Prelude.{◌≡◌, ◌↔◌, [], map, IfOk};
ghost use Rattle.scr_check.specs.Findings.{answer_of, Conforms};
ghost use Rattle.scr_check.specs.Seen.{findings_in, TellsSome};
ghost use Rattle.scr_check.specs.Leads.{IsPromised};
ghost use Rattle.scr_check.specs.Any.{IsPromisedForAny};
ghost use Rattle.scr_check.specs.Demos.{AreShown};
ghost use Rattle.ds_screen.specs.Records.{new_picture};
ghost use Rattle.ds_screen.specs.Outline.{IsOutlineOf};

use crate::checker::{Checker, checker_over};
use crate::fields::findings_of;
use crate::finding::Finding;
use crate::opening::Opening;
use ds_codec::Geometry;
use ds_screen::Outline;
use scr_layout::Layout;
use std::alloc::{AllocError, Global};

/// Whether records and a layout agree.
#[derive(Debug, Drop)]
pub enum Verdict {
    /// Nothing stands against them.
    Yes,
    /// All that does, at least one finding.
    No(Vec<Finding>),
}

pub(crate) fn verdict_of(findings: Vec<Finding>) -> Verdict
    ensures listed { findings_in result ≡ findings.items }
    ensures yes { result ≡ Verdict.Yes ↔ findings.items ≡ [] }
    ensures some { TellsSome result }
{
    if findings.is_empty() {
        Verdict::Yes
    } else {
        Verdict::No(findings)
    }
}

/// A verdict, and the outline that it was found on, where it was.
#[derive(Drop)]
struct Judged {
    verdict: Verdict,
    outline: Option<Outline>,
}

impl Checker<'_> {
    /// The verdict on the records that it took, and the outline.
    fn judged(self, alloc: Global) -> Result<Judged, AllocError>
        ensures yes { IfOk result (λ judged. judged.verdict
            ≡ Verdict.Yes ↔ Conforms self.entry.layout self.entry.records) }
        ensures listed { IfOk result (λ judged. findings_in judged.verdict
            ≡ answer_of self.entry.layout self.entry.records) }
        ensures some { IfOk result (λ judged. TellsSome judged.verdict) }
        ensures promise { IfOk result (λ judged. judged.verdict
            ≡ Verdict.Yes → IsPromised self.entry.layout self.entry.records) }
        ensures any { IfOk result (λ judged. judged.verdict
            ≡ Verdict.Yes → IsPromisedForAny self.entry.layout self.entry.records) }
        ensures shown { IfOk result (λ judged. AreShown self.entry.layout self.entry.records
            (findings_in judged.verdict)) }
    {
        let layout = self.layout();
        match self.opened() {
            Opening::Leads(outline) => Ok(Judged {
                verdict: verdict_of(findings_of(alloc, &outline, layout)?),
                outline: Some(outline),
            }),
            Opening::Stands(finding) => Ok(Judged {
                verdict: verdict_of(vec![in alloc; finding]?),
                outline: None,
            }),
        }
    }

    /// The verdict on the records that it took, as `check` gives it.
    ///
    /// # Errors
    ///
    /// Where a request for memory was refused.
    pub fn verdict(self, alloc: Global) -> Result<Verdict, AllocError>
        ensures yes { IfOk result (λ verdict. verdict
            ≡ Verdict.Yes ↔ Conforms self.entry.layout self.entry.records) }
        ensures listed { IfOk result (λ verdict. findings_in verdict
            ≡ answer_of self.entry.layout self.entry.records) }
        ensures some { IfOk result TellsSome }
        ensures promise { IfOk result (λ verdict. verdict
            ≡ Verdict.Yes → IsPromised self.entry.layout self.entry.records) }
        ensures any { IfOk result (λ verdict. verdict
            ≡ Verdict.Yes → IsPromisedForAny self.entry.layout self.entry.records) }
        ensures shown { IfOk result (λ verdict. AreShown self.entry.layout self.entry.records
            (findings_in verdict)) }
    {
        Ok(self.judged(alloc)?.verdict)
    }
}

/// The outline of a new terminal of this geometry: the one that is kept, where it is of the same.
fn outline_for(
    alloc: Global,
    kept: &mut Option<Outline>,
    geometry: Geometry,
) -> Result<Outline, AllocError>
    ensures { IfOk result (λ outline. IsOutlineOf outline (new_picture geometry)) }
{
    if let Some(last) = kept.take() {
        let mut outline = last;
        if outline.geometry() == geometry {
            outline.restart();
            return Ok(outline);
        }
    }
    Outline::new(alloc, geometry)
}

/// Whether the records, on a new terminal of the layout's geometry, lead to a screen of the named size
/// with exactly the layout's fields: each input declared and no longer than declared, each fixed field
/// protected, nothing else modified. Otherwise all findings: one of F1 to F7 alone, or those of the
/// fields by their attributes in rising order, then the entries without a field.
///
/// # Errors
///
/// Where a request for memory was refused.
pub fn check(alloc: Global, records: &[&[u8]], layout: &Layout) -> Result<Verdict, AllocError>
    ensures yes { IfOk result (λ verdict. verdict
        ≡ Verdict.Yes ↔ Conforms layout.now (map (λ bytes. bytes.now) records.now)) }
    ensures listed { IfOk result
        (λ verdict. findings_in verdict ≡ answer_of layout.now
        (map (λ bytes. bytes.now) records.now)) }
    ensures some { IfOk result TellsSome }
    ensures promise { IfOk result
        (λ verdict. verdict ≡ Verdict.Yes → IsPromised layout.now
        (map (λ bytes. bytes.now) records.now)) }
    ensures any { IfOk result
        (λ verdict. verdict ≡ Verdict.Yes → IsPromisedForAny layout.now
        (map (λ bytes. bytes.now) records.now)) }
    ensures shown { IfOk result
        (λ verdict. AreShown layout.now (map (λ bytes. bytes.now) records.now)
        (findings_in verdict)) }
{
    let outline = Outline::new(alloc, layout.geometry())?;
    checker_over(alloc, outline, records, layout).verdict(alloc)
}

/// The same as `check`, for one check after the other: the outline is kept for the next, which takes no memory for its own
/// where its layout has the same geometry. What is kept changes nothing of the verdict.
///
/// # Errors
///
/// Where a request for memory was refused.
pub fn check_on(
    alloc: Global,
    kept: &mut Option<Outline>,
    records: &[&[u8]],
    layout: &Layout,
) -> Result<Verdict, AllocError>
    ensures yes { IfOk result (λ verdict. verdict
        ≡ Verdict.Yes ↔ Conforms layout.now (map (λ bytes. bytes.now) records.now)) }
    ensures listed { IfOk result
        (λ verdict. findings_in verdict ≡ answer_of layout.now
        (map (λ bytes. bytes.now) records.now)) }
    ensures some { IfOk result TellsSome }
    ensures promise { IfOk result
        (λ verdict. verdict ≡ Verdict.Yes → IsPromised layout.now
        (map (λ bytes. bytes.now) records.now)) }
    ensures any { IfOk result
        (λ verdict. verdict ≡ Verdict.Yes → IsPromisedForAny layout.now
        (map (λ bytes. bytes.now) records.now)) }
    ensures shown { IfOk result
        (λ verdict. AreShown layout.now (map (λ bytes. bytes.now) records.now)
        (findings_in verdict)) }
{
    let outline = outline_for(alloc, kept, layout.geometry())?;
    let judged = checker_over(alloc, outline, records, layout).judged(alloc)?;
    *kept = judged.outline;
    Ok(judged.verdict)
}
