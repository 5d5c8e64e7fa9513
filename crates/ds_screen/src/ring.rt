//! Positions on the ring of a buffer: after the last one comes 0. With `n` the number of cells, positions are 0 to
//! `n - 1`, and steps and distances count positions.

ghost use Rattle.std.specs.Prelude.{◌≡◌, ◌<◌, ◌≤◌};
ghost use Rattle.ds_screen.specs.Ring.{ring_on, ring_back, ring_distance};

/// The position after `p`, of `n`: 0 after the last one. Total for each position.
#[tactic(auto, unfolding(crate::specs::Ring::ring_on))]
pub fn next(n: u32, p: u32) -> u32
    requires { p < n }
    ensures on { result ≡ ring_on n p 1 }
    ensures inside { result < n }
{
    if p + 1 < n { p + 1 } else { 0 }
}

/// The position before `p`, of `n`: the last one before 0. Total for each position.
#[tactic(auto, unfolding(crate::specs::Ring::ring_back))]
pub fn previous(n: u32, p: u32) -> u32
    requires { p < n }
    ensures back { result ≡ ring_back n p 1 }
    ensures inside { result < n }
{
    if p == 0 { n - 1 } else { p - 1 }
}

/// The position that stands `steps` on from `p`, of `n`: `p` itself for 0 and for `n`. Total for each position, with
/// steps up to once round.
#[tactic(auto, unfolding(crate::specs::Ring::ring_on))]
pub fn forward(n: u32, p: u32, steps: u32) -> u32
    requires inside { p < n }
    requires few { steps ≤ n }
    ensures on { result ≡ ring_on n p steps }
    ensures inside { result < n }
{
    let left = n - p;
    if steps < left {
        p + steps
    } else {
        steps - left
    }
}

/// The position that stands `steps` back from `p`, of `n`: `p` itself for 0 and for `n`. Total for each position, with
/// steps up to once round.
#[tactic(auto, unfolding(crate::specs::Ring::ring_back))]
pub fn backward(n: u32, p: u32, steps: u32) -> u32
    requires inside { p < n }
    requires few { steps ≤ n }
    ensures back { result ≡ ring_back n p steps }
    ensures inside { result < n }
{
    if steps <= p {
        p - steps
    } else {
        n - (steps - p)
    }
}

/// The steps from `from` on to `to`, of `n` positions: 0 where they are one, and never once round. Total for each
/// position `from`; a `to` that is no position gives `to - from`.
#[tactic(auto, unfolding(crate::specs::Ring::ring_distance))]
pub fn distance(n: u32, from: u32, to: u32) -> u32
    requires { from < n }
    ensures steps { result ≡ ring_distance n from to }
    ensures short { to < n → result < n }
{
    if from <= to { to - from } else { n - from + to }
}
