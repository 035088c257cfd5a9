//! What the answer of `audit` comes to, each law the contract of a function that does nothing.

ghost use Rattle.std.specs.Prelude.{◌≡◌, ◌↔◌, ℕ, List, Ok, Option, Some};
ghost use Rattle.audit_frame.specs.Ends.{Ends};
ghost use Rattle.cmd_audit.specs.Audit.{audit_answer, pair_answer};
ghost use Rattle.cmd_audit.specs.Headline.{IsAudited};
ghost use Rattle.cmd_audit.specs.declared.command.Audit.{Audit};
ghost use Rattle.cmd_audit.specs.declared.command.AuditEnd.{AuditEnd};
ghost use Rattle.spd_line.specs.Agree.{Agree};
ghost use Rattle.spd_line.specs.declared.line.LineParts.{LineParts};

/// Where both policies tell their contents and the run came to its end, a certificate that they
/// agree was written, which is accepted, and they agree; or `differ` with their least gap: the
/// least packet that they judge differently, and the verdict of the first line that selects it in
/// each.
pub fn the_least_gap_is_written()
    ensures { (told : List ℕ → Option (List ℕ)) (command : Audit) (policy_a policy_b : List ℕ)
        → (before now : Option (List ℕ)) (end : AuditEnd)
        → told command.policy_a.name ≡ Some policy_a → told command.policy_b.name ≡ Some policy_b
        → Ends (audit_answer told command) before now (Ok end)
        → IsAudited policy_a policy_b before now end }
{
    pair_gap::laws::the_least_gap_is_found();
    spd_cut::laws::entries_stand_for();
    cert_make::laws::made_is_accepted();
    spd_file::laws::policies_have_few_lines();
}

/// The answer for two policies is that they agree exactly where they do.
pub fn agreement_is_exact()
    ensures { (a b : List LineParts)
        → ((pair_answer a b).ended ≡ Ok AuditEnd.Agree) ↔ Agree a b }
{
    pair_gap::laws::the_least_gap_is_found();
    pair_gap::laws::one_least_gap();
    spd_cut::laws::entries_stand_for();
}
