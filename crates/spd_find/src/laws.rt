//! What the definition of finding comes to, as the contract of a function that does nothing.

ghost use Rattle.std.specs.Prelude.{◌≡◌, ℕ, List, All, AllPairs, None, Some, false};
ghost use Rattle.sel_box.specs.Boxes.{box_has};
ghost use Rattle.sel_box.specs.declared.any_box.AnyBox.{AnyBox};
ghost use Rattle.sel_box.specs.Point.{PointFields};
ghost use Rattle.sel_region.specs.Region.{AreApart};
ghost use Rattle.spd_find.specs.Finding.{HasAt, index_of};

/// What is found has the point, and where nothing is found, no box has it. Where no two boxes have
/// a point in common, a box that has the point is the one that is found.
pub fn the_box_that_has_the_point_is_found()
    ensures has { (x : PointFields) (boxes : List AnyBox) (index : ℕ)
        → index_of x boxes ≡ Some index → HasAt x boxes index }
    ensures none { (x : PointFields) (boxes : List AnyBox)
        → index_of x boxes ≡ None → All (λ region. box_has region x ≡ false) boxes }
    ensures one { (x : PointFields) (boxes : List AnyBox) (index : ℕ)
        → AllPairs (AreApart box_has) boxes → HasAt x boxes index → index_of x boxes ≡ Some index }
{}
