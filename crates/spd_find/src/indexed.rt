ghost use Rattle.std.specs.Prelude.{◌≡◌, ◌↔◌, IfOk, true};
ghost use Rattle.sel_box.specs.Boxes.{box_has};
ghost use Rattle.sel_box.specs.Point.{PointFields};
ghost use Rattle.spd_find.specs.Finding.{index_of};

use crate::{Finder, NoMemory, Steps};
use sel_box::{AnyBox, Point, RegionList};
use sel_tree::BoxTree;
use std::alloc::Global;
use std::marker::Model;
use std::sync::ledger::Ledger;

/// Boxes in trees, so that the first that has a point is found without a look at each. A contract
/// sees it as the list of the boxes.
#[derive(Debug, Drop)]
pub struct Indexed {
    tree: BoxTree,
}

impl Model for Indexed {
    ghost use Rattle.std.specs.Prelude.{List};
    ghost use Rattle.sel_box.specs.declared.any_box.AnyBox.{AnyBox};

    ghost Value = { List AnyBox };

    ghost view = { λ i. i.tree };
}

impl Indexed {
    /// These boxes, in order. Takes the time of `BoxTree::new`, and memory for a copy of the boxes
    /// and for the trees.
    pub fn new(alloc: Global, boxes: &[AnyBox]) -> Result<Indexed, NoMemory>
        ensures { IfOk result (λ indexed. indexed ≡ boxes.now) }
    {
        Ok(Indexed {
            tree: BoxTree::new(alloc, boxes)?,
        })
    }

    /// The boxes of a list, in order. Takes the time of `BoxTree::new`, and memory for the trees
    /// alone.
    pub fn from_list(alloc: Global, boxes: RegionList) -> Result<Indexed, NoMemory>
        ensures { IfOk result (λ indexed. indexed ≡ boxes) }
    {
        Ok(Indexed {
            tree: BoxTree::from_list(alloc, boxes)?,
        })
    }
}

impl Finder for Indexed {
    ghost boxes = { λ indexed. indexed };

    /// The index of the first box that has the point. Takes no step on the counter, and time by the
    /// boxes whose nodes have the point in their hulls.
    fn find<L: Ledger>(&self, point: &Point, steps: &mut Steps<L>) -> Option<usize>
        ensures index { result ≡ index_of point.now self.now }
        ensures steps { steps.new ≡ steps.old }
    {
        let _ = steps;
        self.tree.first_met(0, &alone(point))
    }
}

// The box that has the point and no other.
fn alone(point: &Point) -> AnyBox
    ensures { (x : PointFields) → (box_has result x ≡ true) ↔ (x ≡ point.now) }
{
    let bounds = [
        only(point.local()),
        only(point.remote()),
        only(u128::from(point.protocol())),
        only(u128::from(point.local_field())),
        only(u128::from(point.remote_field())),
    ];
    match AnyBox::new(point.family(), bounds) {
        Some(region) => region,
        None => unreachable!(),
    }
}

// The bounds of one number.
fn only(value: u128) -> (u128, u128)
    ensures { result ≡ (value, value) }
{
    (value, value)
}
