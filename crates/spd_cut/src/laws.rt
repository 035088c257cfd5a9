//! What the definitions of entries come to, each law the contract of a function that does nothing.

ghost use Rattle.std.specs.Prelude.{◌≡◌, ◌↔◌, ℕ, List, None, Some, All, IsTrue, count_by};
ghost use Rattle.std.specs.List.Sorted.{IsNonDecreasingBy};
ghost use Rattle.sel_box.specs.declared.packet.Direction.{Direction};
ghost use Rattle.sel_box.specs.Packet.{PacketFields, is_packet};
ghost use Rattle.sel_box.specs.Point.{view_of};
ghost use Rattle.spd_line.specs.declared.line.LineParts.{LineParts};
ghost use Rattle.spd_line.specs.First.{first_place, verdict_of};
ghost use Rattle.spd_cut.specs.declared.entry.Entry.{Entry};
ghost use Rattle.spd_cut.specs.Entries.{entries, entry_has, linked_boxes};
ghost use Rattle.spd_cut.specs.Limit.{PassesAt, StaysWithin};
ghost use Rattle.spd_cut.specs.StandsFor.{StandsFor};
ghost use Rattle.spd_cut.specs.Steps.{first_over, steps};

/// The entries of a policy stand for it.
pub fn entries_stand_for()
    ensures { (d : Direction) (lines : List LineParts) → StandsFor (entries d lines) d lines }
{
    sel_box::laws::real_points();
    spd_line::laws::boxes_hold_what_a_line_selects();
    spd_line::laws::final_boxes_hold_all();
    spd_line::laws::the_first_line_is_the_least();
}

/// The entries of a policy come in the order of their lines: those of one line stand next to one
/// another, behind those of earlier lines.
pub fn entries_come_in_the_order_of_lines()
    ensures { (d : Direction) (lines : List LineParts)
        → IsNonDecreasingBy (λ entry. entry.link) (entries d lines) }
{}

/// Where entries stand for a policy, exactly one has the view of a packet in their direction. It is
/// linked to the first line that selects the view, and judged as that line judges it.
pub fn each_packet_has_one_entry()
    ensures one { (d : Direction) (p : PacketFields) (lines : List LineParts) (list : List Entry)
        → IsTrue (is_packet p) → StandsFor list d lines
        → count_by (λ entry. entry_has entry (view_of d p)) list ≡ 1 }
    ensures link { (d : Direction) (p : PacketFields) (lines : List LineParts) (list : List Entry)
        → IsTrue (is_packet p) → StandsFor list d lines
        → All (λ entry. IsTrue (entry_has entry (view_of d p))
        → entry.link ≡ first_place d (view_of d p) lines) list }
    ensures judged { (d : Direction) (p : PacketFields) (lines : List LineParts) (list : List Entry)
        → IsTrue (is_packet p) → StandsFor list d lines
        → All (λ entry. IsTrue (entry_has entry (view_of d p))
        → entry.judgement ≡ (verdict_of d (view_of d p) lines).judgement) list }
{}

/// The limit is passed by no step exactly where, for each box and each beginning of the boxes
/// before it, the entries of those and the pieces that are left of the box without that beginning
/// are together at most the limit. Where it is passed, it is so first at a box of the line that is
/// told.
pub fn each_count_is_asked()
    ensures within { (limit : ℕ) (d : Direction) (lines : List LineParts)
        → (first_over limit (steps d lines) ≡ None) ↔ StaysWithin limit (linked_boxes d 1 lines) }
    ensures passed { (limit line : ℕ) (d : Direction) (lines : List LineParts)
        → first_over limit (steps d lines) ≡ Some line
        → PassesAt limit (linked_boxes d 1 lines) line }
{}
