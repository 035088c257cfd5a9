ghost use Rattle.std.specs.Prelude.{◌≡◌, ◌<◌};
ghost use Rattle.spd_find.specs.Finding.{index_of};

use crate::{Finder, Steps};
use sel_box::Point;
use std::marker::Brand;
use std::sync::ledger::{Blank, Ledger};

/// The index of the first box that has the point, counted from 0, for a caller that needs no count
/// of steps; `None` exactly where none has it. Takes no memory.
pub fn find_uncounted<F: Finder>(finder: &F, point: &Point) -> Option<usize>
    ensures { result ≡ index_of point.now (F.boxes finder.now) }
{
    find_with::<F, Brand>(finder, point, Blank::new(1))
}

// The same over the ledger of a blank.
fn find_with<F: Finder, L: Ledger>(finder: &F, point: &Point, blank: Blank) -> Option<usize>
    requires name { blank.name ≡ L.name }
    requires parts { blank.parts ≡ L.parts }
    requires some { 0 < L.parts }
    ensures { result ≡ index_of point.now (F.boxes finder.now) }
{
    let mut steps = Steps::<L>::new(blank);
    finder.find(point, &mut steps)
}
