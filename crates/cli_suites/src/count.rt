//! Counts that stop at 18,446,744,073,709,551,615.

ghost use Rattle.std.specs.Prelude.{◌≡◌};
ghost use Rattle.cli_suites.specs.Count.{plus};

/// The sum, at most 18,446,744,073,709,551,615.
pub(crate) fn plus(count: u64, more: u64) -> u64
    ensures { result ≡ plus count more }
{
    count.saturating_add(more)
}

/// How many screens there are, and what is said of them. Counts stop at 18,446,744,073,709,551,615.
#[derive(Clone, Copy, Debug, PartialEq, Eq)]
pub(crate) struct Totals {
    pub screens: u64,
    pub yes: u64,
    pub no: u64,
    pub refused: u64,
    pub findings: u64,
    pub accepted: u64,
}
