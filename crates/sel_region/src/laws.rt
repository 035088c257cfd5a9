//! What follows from the laws of regions, for every kind of region and every axis.

ghost use Rattle.std.specs.Prelude.{◌≡◌, ◌↔◌, ℕ, true, List, [], Some, if◌then◌else◌};
ghost use Rattle.std.specs.List.{list_any};
ghost use Rattle.sel_region.specs.Cutting.{cut_all, cut_each};
ghost use Rattle.sel_region.specs.Interval.{Range, range_on, range_within, whole_range};
ghost use Rattle.sel_region.specs.Region.{hits};

use crate::axis::Axis;
use crate::region::Region;

/// A region is within itself and is its own meet, and nothing is left of it without itself.
pub fn equal_regions<R: Region>()
    ensures within { (r : R) → R.within r r ≡ true }
    ensures meet { (r : R) → R.meet r r ≡ Some r }
    ensures minus { (r : R) → R.minus r r ≡ [] }
{}

/// A region is within another exactly where it is their meet, and exactly where nothing is left of
/// it without the other.
pub fn region_within<R: Region>()
    ensures meet { (a b : R) → (R.within a b ≡ true) ↔ (R.meet a b ≡ Some a) }
    ensures minus { (a b : R) → (R.within a b ≡ true) ↔ (R.minus a b ≡ []) }
{}

/// Two regions have the same meet from either side, and it is within both.
pub fn region_meet<R: Region>()
    ensures sides { (a b : R) → R.meet a b ≡ R.meet b a }
    ensures within { (a b m : R) → R.meet a b ≡ Some m
        → (R.within m a ≡ true) × (R.within m b ≡ true) }
{}

/// Where a region is taken out of each piece of a list, its points are in no piece, and any other
/// point is in as many as before. So it is where some regions are taken out.
pub fn cut_points<R: Region>()
    ensures each { (pieces : List R) (region : R) (p : R.Point) →
        hits R.has (cut_each R.minus pieces region) p
        ≡ (if R.has region p then 0 else hits R.has pieces p) }
    ensures all { (pieces regions : List R) (p : R.Point) →
        hits R.has (cut_all R.minus pieces regions) p
        ≡ (if list_any (λ region. R.has region p) regions then 0 else hits R.has pieces p) }
{}

/// The whole axis is an interval, and each interval on the axis is within it.
pub fn whole_axis<A: Axis>()
    ensures whole { range_on A.LAST 0 A.LAST ≡ Some (whole_range A.LAST) }
    ensures within { (low high : ℕ) (r : Range) → range_on A.LAST low high ≡ Some r
        → range_within r (whole_range A.LAST) ≡ true }
{}
