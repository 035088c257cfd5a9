//! What the first box that meets another is, as the contract of a function that does nothing.

ghost use Rattle.std.specs.Prelude.{◌≡◌, ℕ, List, None, Some, length};
ghost use Rattle.sel_box.specs.declared.any_box.AnyBox.{AnyBox};
ghost use Rattle.sel_tree.specs.FirstMet.{IsFirstMet, NoneMet, first_met_from};

/// An index that is found is that of the first box, from an index on, that meets another, and only
/// that is found. Where none is found, no box from there on meets it.
pub fn the_first_box_that_meets_is_found()
    ensures found { (from : ℕ) (region : AnyBox) (regions : List AnyBox) (index : ℕ)
        → first_met_from from region regions ≡ Some index → IsFirstMet from region regions index }
    ensures only { (from : ℕ) (region : AnyBox) (regions : List AnyBox) (index : ℕ)
        → IsFirstMet from region regions index → first_met_from from region regions ≡ Some index }
    ensures none { (from : ℕ) (region : AnyBox) (regions : List AnyBox)
        → first_met_from from region regions ≡ None → NoneMet from (length regions) region regions }
{}
