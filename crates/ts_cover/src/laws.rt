//! What selectors that are cut to a box come to, the law the contract of a function that does
//! nothing.

ghost use Rattle.std.specs.Prelude.{◌≡◌, ◌&&◌, true, List};
ghost use Rattle.sel_box.specs.declared.any_box.AnyBox.{AnyBox};
ghost use Rattle.sel_box.specs.Boxes.{box_has};
ghost use Rattle.sel_box.specs.Point.{IsReal, PointFields};
ghost use Rattle.ts_payload.specs.declared.selector.Ts.{Ts};
ghost use Rattle.ts_payload.specs.Selector.{AreSelectors};
ghost use Rattle.ts_cover.specs.Covered.{covered};
ghost use Rattle.ts_cover.specs.Writing as writing;

/// Selectors that are cut to a box of which both sides can be written cover exactly the real points
/// that they covered before and the box has.
pub fn cut_selectors_cover_the_box()
    ensures { (region : AnyBox) (tsi tsr : List Ts) (x : PointFields)
        → AreSelectors tsi → AreSelectors tsr → writing.can_write region ≡ true → IsReal x
        → covered (writing.cut_selectors (writing.remote_side region) tsi)
        (writing.cut_selectors (writing.local_side region) tsr) x
        ≡ (covered tsi tsr x && box_has region x) }
{}
