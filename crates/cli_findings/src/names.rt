//! The words by which tools know findings.

ghost use Rattle.std.specs.Prelude.{◌≡◌};
ghost use Rattle.cli_findings.specs.Name.{name_of};

use crate::rule::rule_of;
use scr_check::Finding;

/// The name of a finding, in kebab case.
pub fn name_of(finding: &Finding) -> &'static str
    ensures { result.now ≡ name_of finding.now }
{
    rule_of(finding).name()
}
