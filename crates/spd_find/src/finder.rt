ghost use Rattle.std.specs.Prelude.{◌≡◌, ◌≤◌, List};
ghost use Rattle.sel_box.specs.declared.any_box.AnyBox.{AnyBox};
ghost use Rattle.spd_find.specs.Finding.{index_of};

use crate::Steps;
use sel_box::Point;
use std::sync::ledger::Ledger;

/// Boxes among which the one that has a point is found.
pub trait Finder {
    /// The boxes, in order.
    ghost boxes: { Self → List AnyBox };

    /// The index of the first box that has the point, counted from 0; `None` exactly where none has
    /// it. Where no two boxes have a point in common it is the only one. Takes no memory.
    ///
    /// Each look at a sorted list of addresses is a step on the counter.
    fn find<L: Ledger>(&self, point: &Point, steps: &mut Steps<L>) -> Option<usize>
        ensures index { result ≡ index_of point.now (boxes self.now) }
        ensures steps { steps.old ≤ steps.new };
}
