//! What an accepted certificate shows, each law the contract of a function that does nothing.
ghost use Rattle.std.specs.Prelude.{◌≡◌, ◌↔◌, List, Ok, true, ℕ};
ghost use Rattle.spd_line.specs.declared.line.LineParts.{LineParts};
ghost use Rattle.spd_line.specs.Agree.{Agree};
ghost use Rattle.cert_text.specs.declared.node.Node.{Node};
ghost use Rattle.cert_text.specs.Rows.{a_rows, b_rows};
ghost use Rattle.cert_text.specs.Valid.{holds, valid, whole_boxes};
ghost use Rattle.cert_check.specs.Answer.{IsValidCertificate, check_answer};
ghost use Rattle.cert_check.specs.declared.answer.Checked.{Checked};

/// Two policies with valid nodes over all of IPv4 and all of IPv6 agree: B judges each packet that
/// comes in as A judges it when it goes out (RFC 4301 section 5).
pub fn valid_agrees()
    ensures { (a b : List LineParts) (nodes : List Node)
        → valid (holds (a_rows a) (b_rows b)) nodes whole_boxes ≡ true → Agree a b }
{
    spd_line::laws::boxes_hold_what_a_line_selects();
    spd_line::laws::final_boxes_hold_all();
    spd_line::laws::judgements_are_compared();
    spd_line::laws::the_first_line_is_the_least();
    sel_box::laws::real_points();
    sel_box::laws::real_points_are_points();
}

/// A text is accepted exactly where it is a certificate each of whose nodes holds.
pub fn accepted_is_valid()
    ensures { (a b : List LineParts) (text : List ℕ)
        → (check_answer a b text ≡ Ok Checked.Accepted) ↔ IsValidCertificate a b text }
{}
