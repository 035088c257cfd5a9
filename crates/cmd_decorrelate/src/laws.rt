//! What the answer of the command comes to, the law the contract of a function that does nothing.

ghost use Rattle.std.specs.Prelude.{◌≡◌, ℕ, List, Ok, Option, Some};
ghost use Rattle.audit_frame.specs.Ends.{Ends};
ghost use Rattle.cmd_decorrelate.specs.declared.command.Decorrelate.{Decorrelate};
ghost use Rattle.cmd_decorrelate.specs.Decorrelate.{decorrelate_answer};
ghost use Rattle.cmd_decorrelate.specs.Headline.{IsDecorrelated};

/// Where the policy's content is told, and the command ended without a refusal, the text gained the
/// views of entries that stand for the policy (RFC 4301 Appendix B).
pub fn views_stand_for_the_policy()
    ensures { (told : List ℕ → Option (List ℕ)) (command : Decorrelate) (content : List ℕ)
        (before now : Option (List ℕ)) → told command.policy.name ≡ Some content
        → Ends (decorrelate_answer told command) before now (Ok tt)
        → IsDecorrelated content before now }
{
    spd_cut::laws::entries_stand_for();
}
