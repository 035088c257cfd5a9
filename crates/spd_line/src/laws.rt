//! What the definitions of lines come to, each law the contract of a function that does nothing.
ghost use Rattle.std.specs.Prelude.{◌≡◌, ◌+◌, ◌<◌, ◌≤◌, ℕ, List, Some, IsTrue, length, false, true};
ghost use Rattle.std.specs.Prelude.{count_by};
ghost use Rattle.std.specs.List.{All, list_any};
ghost use Rattle.sel_box.specs.Boxes.{box_has};
ghost use Rattle.sel_box.specs.declared.packet.Direction.{Direction};
ghost use Rattle.sel_box.specs.Point.{PointFields, is_point};
ghost use Rattle.spd_line.specs.declared.judgement.Judgement.{Judgement};
ghost use Rattle.spd_line.specs.declared.line.LineParts.{LineParts};
ghost use Rattle.spd_line.specs.Agree.{same_judgement};
ghost use Rattle.spd_line.specs.First.{first_place, line_at};
ghost use Rattle.spd_line.specs.Judged.{judged};
ghost use Rattle.spd_line.specs.LineBoxes.{final_list, line_boxes};
ghost use Rattle.spd_line.specs.Selects.{has_direction, selects};
ghost use Rattle.spd_line.specs.Width.{AreInOrder, box_count};

/// The first place is the least place of a line that selects the point, and the place behind the
/// last where no line does.
pub fn the_first_line_is_the_least()
    ensures low { (d : Direction) (x : PointFields) (lines : List LineParts)
        → 1 ≤ first_place d x lines }
    ensures high { (d : Direction) (x : PointFields) (lines : List LineParts)
        → first_place d x lines ≤ length lines + 1 }
    ensures selects { (d : Direction) (x : PointFields) (lines : List LineParts)
        → (line : LineParts) → line_at lines (first_place d x lines) ≡ Some line
        → selects d x line ≡ true }
    ensures least { (d : Direction) (x : PointFields) (lines : List LineParts)
        → (place : ℕ) (line : LineParts) → place < first_place d x lines
        → line_at lines place ≡ Some line → selects d x line ≡ false }
{}

/// Some box of a line has a point on the axes exactly where the line selects it, and each box that
/// has a point carries the line's judgement of it.
pub fn boxes_hold_what_a_line_selects()
    ensures has { (d : Direction) (x : PointFields) (line : LineParts) → IsTrue (is_point x)
        → list_any (λ b. box_has b.region x) (line_boxes d line) ≡ selects d x line }
    ensures judged { (d : Direction) (x : PointFields) (line : LineParts)
        → All (λ b. box_has b.region x ≡ true → b.judgement ≡ judged d x line) (line_boxes d line) }
{}

/// A line has at most as many boxes as the count by which it is refused as too wide, and exactly as
/// many in a direction that it has where its ranges are in order and none has a port above 65535.
pub fn boxes_are_counted()
    ensures few { (d : Direction) (line : LineParts) → length (line_boxes d line) ≤ box_count line }
    ensures all { (d : Direction) (line : LineParts) → has_direction line.way d ≡ true
        → AreInOrder line → length (line_boxes d line) ≡ box_count line }
{}

/// Two judgements are the same by the test exactly where they are equal.
pub fn judgements_are_compared()
    ensures reflexive { (a : Judgement) → same_judgement a a ≡ true }
    ensures equal { (a b : Judgement) → same_judgement a b ≡ true → a ≡ b }
{}

/// Each point on the axes is in exactly one box of `final`, and both are discarded.
pub fn final_boxes_hold_all()
    ensures once { (x : PointFields) → IsTrue (is_point x)
        → count_by (λ b. box_has b.region x) final_list ≡ 1 }
    ensures discards { All (λ b. b.judgement ≡ Judgement.Discard) final_list }
{}
