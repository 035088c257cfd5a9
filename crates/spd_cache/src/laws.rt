//! What the definitions of a cache come to, each law the contract of a function that does nothing.

ghost use Rattle.std.specs.Prelude.{◌≡◌, ◌↔◌, ◌+◌, ◌≤◌, ℕ, List, is_some, length, true};
ghost use Rattle.std.specs.List.{list_any};
ghost use Rattle.sel_box.specs.declared.packet.Direction.{Direction};
ghost use Rattle.sel_box.specs.Point.{PointFields};
ghost use Rattle.spd_line.specs.declared.line.LineParts.{LineParts};
ghost use Rattle.spd_line.specs.First.{name_at, verdict_of};
ghost use Rattle.spd_line.specs.Policy.{IsPolicy};
ghost use Rattle.spd_cache.specs.declared.key.Key.{Key};
ghost use Rattle.spd_cache.specs.Cached.{Cell, first_hit, holds};
ghost use Rattle.spd_cache.specs.Key.{same_key};
ghost use Rattle.spd_cache.specs.KeyOf.{key_of, place_named};

/// Two keys are the same by the test exactly where they are equal.
pub fn keys_are_compared()
    ensures { (a b : Key) → (same_key a b ≡ true) ↔ (a ≡ b) }
{}

/// A point is answered exactly where some group of its direction has it.
pub fn points_of_groups_are_answered()
    ensures { (d : Direction) (x : PointFields) (cells : List Cell)
        → is_some (first_hit d x cells) ≡ list_any (holds d x) cells }
{}

/// The name of a line of a policy, `final` of the one behind the last, tells its place.
pub fn names_tell_their_lines()
    ensures { (place : ℕ) (lines : List LineParts) → IsPolicy lines
        → 1 ≤ place → place ≤ length lines + 1 → place_named (name_at lines place) lines ≡ place }
{}

/// Two points of one key under a policy have one verdict: its line and its judgement.
pub fn one_key_has_one_verdict()
    ensures { (d : Direction) (x y : PointFields) (lines : List LineParts) → IsPolicy lines
        → key_of d x lines ≡ key_of d y lines → verdict_of d x lines ≡ verdict_of d y lines }
{
    names_tell_their_lines();
    spd_line::laws::the_first_line_is_the_least();
}
