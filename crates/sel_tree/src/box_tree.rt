ghost use Rattle.std.specs.Prelude.{◌≡◌, ◌==◌, IfOk, length, slice_get};
ghost use Rattle.std.specs.Option.{option_copied};

use crate::NoMemory;
use crate::build::trees_for;
use crate::check::checked;
use crate::search::{first_met_between, first_placed};
use crate::trees::Trees;
use sel_box::{AnyBox, RegionList};
use std::alloc::Global;
use std::marker::Model;

// So many boxes are looked at one by one before the trees are.
const FEW: usize = 64;

/// A list of boxes in which the first, from an index on, that meets another box is found without a
/// look at each. A contract sees the list.
///
/// The boxes of each family stand in a tree, where one test passes over all boxes below a node
/// whose hull doesn't meet the other box.
#[derive(Debug, Drop)]
pub struct BoxTree {
    regions: RegionList,
    trees: Trees,
}

impl Model for BoxTree {
    ghost use Rattle.std.specs.Prelude.{List};
    ghost use Rattle.sel_box.specs.declared.any_box.AnyBox.{AnyBox};
    ghost use Rattle.sel_tree.specs.inner.Trees.{IsIndex};

    ghost Value = { List AnyBox };

    ghost view = { λ t. t.regions };

    ghost invariant = { λ t.
        IsIndex t.regions t.trees.four.items t.trees.six.items t.trees.placed };
}

impl BoxTree {
    ghost use Rattle.sel_tree.specs.FirstMet.{first_met_from};

    /// These boxes, in order.
    ///
    /// Takes time by n log n for n boxes, and memory for a copy of them and a node for each: some
    /// 170 bytes a box of IPv4 and 230 one of IPv6, and at most some 220 and 340 where the lists of
    /// nodes have room to spare.
    pub fn new(alloc: Global, regions: &[AnyBox]) -> Result<BoxTree, NoMemory>
        ensures { IfOk result (λ tree. tree ≡ regions.now) }
    {
        let mut list = RegionList::new(alloc);
        list.extend(regions)?;
        BoxTree::from_list(alloc, list)
    }

    /// The boxes of a list, in order, which stays as it is: memory is taken for the nodes alone,
    /// and time as by `new`.
    pub fn from_list(alloc: Global, regions: RegionList) -> Result<BoxTree, NoMemory>
        ensures { IfOk result (λ tree. tree ≡ regions) }
    {
        let trees = trees_for(alloc, regions.as_slice())?;
        let trees = checked(alloc, regions.as_slice(), trees)?;
        Ok(BoxTree { regions, trees })
    }

    /// The least index, from one on, of a box that meets the region; `None` exactly where there is
    /// none. An index counts from 0. Takes no memory.
    ///
    /// Looks at the next 64 boxes in turn, and then at the boxes whose nodes have a hull above them
    /// that meets the region, and that come before the best one so far.
    pub fn first_met(&self, from: usize, region: &AnyBox) -> Option<usize>
        ensures { result ≡ first_met_from from region.now self.now }
    {
        let regions = self.regions.as_slice();
        let few = from.saturating_add(FEW).min(regions.len());
        let near = first_met_between(regions, from, few, region);
        if near < few {
            return Some(near);
        }
        let placed = first_placed(&self.trees, regions, few, region);
        let first = first_met_between(regions, few.max(self.trees.placed), placed, region);
        if first < regions.len() {
            Some(first)
        } else {
            None
        }
    }

    /// How many boxes there are.
    pub fn len(&self) -> usize
        ensures { result ≡ length self.now }
    {
        self.regions.len()
    }

    /// Whether there is no box.
    pub fn is_empty(&self) -> bool
        ensures { result ≡ (length self.now == 0) }
    {
        self.regions.is_empty()
    }

    /// The box at an index, which begins at 0; `None` past the end.
    pub fn get(&self, index: usize) -> Option<&AnyBox>
        ensures { option_copied result ≡ slice_get self.now index }
    {
        self.regions.get(index)
    }

    /// All boxes, in order.
    pub fn as_slice(&self) -> &[AnyBox]
        ensures { result.now ≡ self.now }
    {
        self.regions.as_slice()
    }
}
