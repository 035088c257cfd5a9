//! What the answer of the command comes to, the law the contract of a function that does nothing.

ghost use Rattle.std.specs.Prelude.{◌≡◌, ℕ, List, Ok, Option, Some};
ghost use Rattle.audit_frame.specs.Ends.{Ends};
ghost use Rattle.cmd_narrow.specs.declared.command.Narrow.{Narrow};
ghost use Rattle.cmd_narrow.specs.declared.command.NarrowEnd.{NarrowEnd};
ghost use Rattle.cmd_narrow.specs.Headline.{IsAnswered};
ghost use Rattle.cmd_narrow.specs.Narrow.{narrow_answer};

/// Where the contents of both files are told, and the command ended by itself, the text gained
/// selectors that are a right answer to the proposal by the policy; or that nothing is acceptable,
/// and nothing is; or the proposal has this fault, and the text stayed (RFC 7296 section 2.9).
pub fn the_proposal_is_answered()
    ensures { (told : List ℕ → Option (List ℕ)) (command : Narrow) (policy proposal : List ℕ)
        (before now : Option (List ℕ)) (end : NarrowEnd)
        → told command.policy.name ≡ Some policy
        → told command.proposal.name ≡ Some proposal
        → Ends (narrow_answer told command) before now (Ok end)
        → IsAnswered policy proposal before now end }
{
    spd_cut::laws::entries_stand_for();
    ts_wire::laws::proposals_have_selectors();
    ts_narrow::laws::narrowing_is_right();
}
