//! What the maker's rule comes to, each law the contract of a function that does nothing.
ghost use Rattle.std.specs.Prelude.{◌≡◌, ◌≤◌, ◌∷◌, ◌++◌, [], List, Ok, length, true};
ghost use Rattle.sel_box.specs.declared.any_box.AnyBox.{AnyBox};
ghost use Rattle.spd_line.specs.declared.line.LineParts.{LineParts};
ghost use Rattle.spd_line.specs.Agree.{Agree};
ghost use Rattle.spd_line.specs.Policy.{most_lines};
ghost use Rattle.cert_text.specs.declared.node.Node.{Node};
ghost use Rattle.cert_text.specs.Certificate.{certificate_of};
ghost use Rattle.cert_text.specs.Rows.{a_rows, b_rows};
ghost use Rattle.cert_text.specs.Valid.{holds, parts, valid, whole_boxes};
ghost use Rattle.cert_check.specs.declared.answer.Checked.{Checked};
ghost use Rattle.cert_check.specs.Answer.{check_answer};
ghost use Rattle.cert_make.specs.Rule.{made_node};
ghost use Rattle.cert_make.specs.Text.{certificate_text};
ghost use Rattle.cert_make.specs.Trees.{made_nodes, trees_of};

/// The trees over some boxes begin with the rule's node over the first box, and behind it come the
/// trees over the parts into which that node splits the box, and then those over the other boxes.
pub fn the_rule_makes_trees()
    ensures none { (a b : List LineParts) → trees_of (made_node a b) [] ≡ [] }
    ensures some { (a b : List LineParts) (box : AnyBox) (boxes : List AnyBox)
        → trees_of (made_node a b) (box ∷ boxes)
        ≡ made_node a b box ∷ trees_of (made_node a b) (parts (made_node a b box) box ++ boxes) }
{}

/// Where two policies agree, the nodes that are made of them are valid over all of IPv4 and all of
/// IPv6 (RFC 4301 section 5).
pub fn made_is_valid()
    ensures { (a b : List LineParts) → Agree a b
        → valid (holds (a_rows a) (b_rows b)) (made_nodes a b) whole_boxes ≡ true }
{
    spd_line::laws::boxes_hold_what_a_line_selects();
    spd_line::laws::final_boxes_hold_all();
    spd_line::laws::judgements_are_compared();
    spd_line::laws::the_first_line_is_the_least();
    sel_box::laws::real_points();
    sel_box::laws::real_points_are_points();
}

/// The text of valid nodes of two policies is read as a certificate with these nodes.
pub fn what_is_made_reads_back()
    ensures { (a b : List LineParts) (nodes : List Node)
        → length a ≤ most_lines → length b ≤ most_lines
        → valid (holds (a_rows a) (b_rows b)) nodes whole_boxes ≡ true
        → certificate_of (certificate_text nodes) ≡ Ok nodes }
{
    cert_text::laws::nodes_read_back();
    cert_text::laws::a_node_is_one_line();
}

/// Where two policies agree, the certificate that is made of them is accepted.
pub fn made_is_accepted()
    ensures { (a b : List LineParts) → length a ≤ most_lines → length b ≤ most_lines → Agree a b
        → check_answer a b (certificate_text (made_nodes a b)) ≡ Ok Checked.Accepted }
{
    made_is_valid();
    what_is_made_reads_back();
    cert_check::laws::accepted_is_valid();
}
