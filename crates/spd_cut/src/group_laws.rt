//! What the definition of a group comes to, as the contract of a function that does nothing.

ghost use Rattle.std.specs.Prelude.{◌≡◌, ◌==◌, ◌&&◌, ℕ, List, All, IsTrue, Some, None, option_map};
ghost use Rattle.std.specs.Prelude.{if◌then◌else◌};
ghost use Rattle.std.specs.List.{find};
ghost use Rattle.sel_box.specs.Boxes.{box_has};
ghost use Rattle.sel_box.specs.declared.packet.Direction.{Direction};
ghost use Rattle.sel_box.specs.Point.{IsReal, PointFields};
ghost use Rattle.spd_line.specs.declared.line.LineParts.{LineParts};
ghost use Rattle.spd_line.specs.declared.pin.Pins.{Pins};
ghost use Rattle.spd_line.specs.First.{first_place, verdict_of};
ghost use Rattle.spd_cut.specs.declared.entry.Entry.{Entry};
ghost use Rattle.spd_cut.specs.Group.{group_has, group_of, pins_fit};
ghost use Rattle.spd_cut.specs.StandsFor.{StandsFor};

/// Where entries stand for a policy, the group of a place and of pinned values has a real point
/// exactly where the line at the place is the point's first and the point has the values. Each box
/// of it that has the point is judged as that line judges the point, the first of them too.
pub fn groups_have_their_points()
    ensures has { (d : Direction) (x : PointFields) (lines : List LineParts) (list : List Entry)
        → (place : ℕ) (pins : Pins) → IsReal x → StandsFor list d lines
        → group_has (group_of list place pins) x
        ≡ ((first_place d x lines == place) && pins_fit pins x) }
    ensures judged { (d : Direction) (x : PointFields) (lines : List LineParts) (list : List Entry)
        → (place : ℕ) (pins : Pins) → IsReal x → StandsFor list d lines
        → All (λ box. IsTrue (box_has box.region x)
        → box.judgement ≡ (verdict_of d x lines).judgement) (group_of list place pins) }
    ensures first { (d : Direction) (x : PointFields) (lines : List LineParts) (list : List Entry)
        → (place : ℕ) (pins : Pins) → IsReal x → StandsFor list d lines
        → option_map (λ box. box.judgement)
        (find (λ box. box_has box.region x) (group_of list place pins))
        ≡ (if (first_place d x lines == place) && pins_fit pins x
        then Some (verdict_of d x lines).judgement else None) }
{}
