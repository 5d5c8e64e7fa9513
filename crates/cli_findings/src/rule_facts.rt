//! By what services know a finding: the rule in the logs.

ghost use Rattle.std.specs.Prelude.{◌≡◌, length};
ghost use Rattle.cli_findings.specs.Rule.{all_rules, rule_of, rule_id, rule_index, meaning_of, mend_of, form_of};

use crate::rule::{all_rules, rule_of};
use scr_check::Finding;

/// The rule of a finding: an F and its number.
pub fn rule_id_of(finding: &Finding) -> &'static str
    ensures { result.now ≡ rule_id (rule_of finding.now) }
{
    rule_of(finding).id()
}

/// What it means, in a sentence.
pub fn meaning_of_finding(finding: &Finding) -> &'static str
    ensures { result.now ≡ meaning_of (rule_of finding.now) }
{
    rule_of(finding).meaning()
}

/// How it is mended, in a sentence.
pub fn mend_of_finding(finding: &Finding) -> &'static str
    ensures { result.now ≡ mend_of (rule_of finding.now) }
{
    rule_of(finding).mend()
}

/// What is printed after its number, with words in capitals for what differs.
pub fn form_of_finding(finding: &Finding) -> &'static str
    ensures { result.now ≡ form_of (rule_of finding.now) }
{
    rule_of(finding).form()
}

/// Where its rule stands among all rules, counted from 0.
pub fn rule_index_of(finding: &Finding) -> usize
    ensures { result ≡ rule_index (rule_of finding.now) }
{
    rule_of(finding).index()
}

/// How many rules the logs of records have.
pub fn rule_count() -> usize
    ensures { result ≡ length all_rules }
{
    all_rules().len()
}
