//! What the definitions of payloads and proposals, and the table of how ranges of fields are
//! written, come to.
ghost use Rattle.std.specs.Prelude.{◌≡◌, ℕ, List, Ok};
ghost use Rattle.ts_payload.specs.Selector.{AreSelectors};
ghost use Rattle.ts_wire.specs.declared.proposal.Proposal.{Proposal};
ghost use Rattle.ts_wire.specs.Proposal.{proposal_of};

pub use ts_payload::laws::{one_spelling, payloads_are_read};
pub use ts_span::laws::ranges_have_one_row;

/// What a proposal gives are selectors that a payload can have, on both sides.
pub fn proposals_have_selectors()
    ensures { (bytes : List ℕ) (proposal : Proposal) → proposal_of bytes ≡ Ok proposal
        → AreSelectors proposal.tsi × AreSelectors proposal.tsr }
{}
