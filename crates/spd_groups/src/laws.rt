//! What cached groups come to under a policy, each law the contract of a function that does
//! nothing.

ghost use Rattle.std.specs.Prelude.{◌≡◌, List, All, option_map};
ghost use Rattle.std.specs.Map.{lookup_entry};
ghost use Rattle.sel_box.specs.declared.packet.Direction.{Direction};
ghost use Rattle.sel_box.specs.Point.{IsReal, PointFields};
ghost use Rattle.spd_line.specs.declared.line.LineParts.{LineParts};
ghost use Rattle.spd_line.specs.Policy.{IsPolicy};
ghost use Rattle.spd_cache.specs.Cached.{Cell, IsAnsweredAlike, first_hit};
ghost use Rattle.spd_cache.specs.Key.{same_key};
ghost use Rattle.spd_cache.specs.KeyOf.{key_of};
ghost use Rattle.spd_groups.specs.Groups.{HasItsPoints, IsGroup, answer_of};

/// The group of a point's key has exactly the real points of that key.
pub fn groups_have_the_points_of_their_keys()
    ensures { (d : Direction) (y : PointFields) (lines : List LineParts) → IsPolicy lines
        → HasItsPoints lines (key_of d y lines) }
{
    spd_cache::laws::names_tell_their_lines();
    spd_cut::laws::entries_stand_for();
    spd_cut::group_laws::groups_have_their_points();
    spd_line::laws::the_first_line_is_the_least();
}

/// Where each cached group is that of its key, a real point is answered exactly where its own key
/// is there, by that key's group, with the name and the judgement of the point's first line.
pub fn groups_answer_by_the_key_of_a_point()
    ensures { (d : Direction) (x : PointFields) (lines : List LineParts) (cells : List Cell)
        → IsReal x → All (IsGroup lines) cells → first_hit d x cells
        ≡ option_map (λ cell. (cell.0, answer_of d x lines))
        (lookup_entry (same_key (key_of d x lines)) cells) }
{
    spd_cut::laws::entries_stand_for();
    spd_cut::group_laws::groups_have_their_points();
}

/// Where each cached group is that of its key, all groups that have a real point answer it alike.
pub fn groups_answer_alike()
    ensures { (d : Direction) (x : PointFields) (lines : List LineParts) (cells : List Cell)
        → IsReal x → All (IsGroup lines) cells → IsAnsweredAlike d x cells }
{
    spd_cut::laws::entries_stand_for();
    spd_cut::group_laws::groups_have_their_points();
}
