ghost use Rattle.std.specs.Prelude.{◌≡◌, IfOk};
ghost use Rattle.spd_find.specs.Finding.{index_of};

use crate::{Finder, NoMemory, Steps};
use sel_box::{AnyBox, Point, Region, RegionList};
use std::alloc::Global;
use std::marker::Model;
use std::sync::ledger::Ledger;

/// Boxes in a list, all of which are looked at in turn. A contract sees it as that list.
#[derive(Debug, Drop)]
pub struct Plain {
    boxes: RegionList,
}

impl Model for Plain {
    ghost use Rattle.std.specs.Prelude.{List};
    ghost use Rattle.sel_box.specs.declared.any_box.AnyBox.{AnyBox};

    ghost Value = { List AnyBox };

    ghost view = { λ p. p.boxes };
}

impl Plain {
    /// These boxes, in order. Takes memory for a copy of them.
    pub fn new(alloc: Global, boxes: &[AnyBox]) -> Result<Plain, NoMemory>
        ensures { IfOk result (λ plain. plain ≡ boxes.now) }
    {
        let mut list = RegionList::new(alloc);
        list.extend(boxes)?;
        Ok(Plain { boxes: list })
    }
}

impl Finder for Plain {
    ghost boxes = { λ plain. plain };

    /// The index of the first box that has the point. Takes time by the number of boxes up to that
    /// one, and no step on the counter.
    fn find<L: Ledger>(&self, point: &Point, steps: &mut Steps<L>) -> Option<usize>
        ensures index { result ≡ index_of point.now self.now }
        ensures steps { steps.new ≡ steps.old }
    {
        let _ = steps;
        self.boxes.iter().position(|region| region.has(point))
    }
}
