//! What the answer of the command comes to, the law the contract of a function that does nothing.

ghost use Rattle.std.specs.Prelude.{◌≡◌, ℕ, List, Ok, Option, Some};
ghost use Rattle.audit_frame.specs.Ends.{Ends};
ghost use Rattle.cmd_check.specs.declared.command.Check.{Check};
ghost use Rattle.cmd_check.specs.declared.command.CheckEnd.{CheckEnd};
ghost use Rattle.cmd_check.specs.Check.{check_answer};
ghost use Rattle.cmd_check.specs.Headline.{IsAgreed};

/// Where the contents of all three files are told, and the command ended as accepted, the text
/// gained `accepted`, and the two policies agree: B judges each packet that comes in as A judges it
/// when it goes out (RFC 4301 section 5).
pub fn accepted_policies_agree()
    ensures { (told : List ℕ → Option (List ℕ)) (command : Check)
        (content_a content_b certificate : List ℕ) (before now : Option (List ℕ))
        → told command.policy_a.name ≡ Some content_a
        → told command.policy_b.name ≡ Some content_b
        → told command.certificate.name ≡ Some certificate
        → Ends (check_answer told command) before now (Ok CheckEnd.Accepted)
        → IsAgreed content_a content_b before now }
{
    cert_check::laws::accepted_is_valid();
    cert_check::laws::valid_agrees();
}
