ghost use Rattle.std.specs.Prelude.{◌≡◌};
ghost use Rattle.sel_box.specs.Boxes.{box_has};
ghost use Rattle.sel_box.specs.Point.{PointFields};
ghost use Rattle.sel_box.specs.Swap.{box_swapped, point_swapped, ranges_swapped};

use crate::any_box::{AnyBox, Ranges};
use sel_region::{Axis, Pair};

/// The box as the other end of the path sees it: local and remote are exchanged, the addresses and
/// the fields. It has a point exactly where the region has that point with its sides exchanged.
#[inline]
pub fn swap(region: &AnyBox) -> AnyBox
    ensures swapped { result ≡ box_swapped region.now }
    ensures points { (x : PointFields) → box_has result x ≡ box_has region.now (point_swapped x) }
{
    match region {
        AnyBox::Four(ranges) => AnyBox::Four(swap_ranges(ranges)),
        AnyBox::Six(ranges) => AnyBox::Six(swap_ranges(ranges)),
    }
}

// The ranges with local and remote exchanged.
#[inline]
fn swap_ranges<A: Axis>(ranges: &Ranges<A>) -> Ranges<A>
    ensures { result ≡ ranges_swapped ranges.now }
{
    let after_local = ranges.second;
    let after_remote = after_local.second;
    let fields = after_remote.second;
    Pair {
        first: after_local.first,
        second: Pair {
            first: ranges.first,
            second: Pair {
                first: after_remote.first,
                second: Pair {
                    first: fields.second,
                    second: fields.first,
                },
            },
        },
    }
}
