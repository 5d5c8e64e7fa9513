//! A law on what is drafted. The function does nothing: the law is the contract.

ghost use Rattle.cli_turns.specs.Drafts.{AreJoined};

/// What `draft_turns_text` answers are the drafts that `each_draft` answers, each below its line `# turn K`.
#[tactic(auto, using(crate::proofs::JoinLaws::are_joined))]
pub fn drafts_law()
    ensures { AreJoined }
{}
