ghost use Rattle.std.specs.Prelude.{◌≡◌, ◌<◌, IfOk, IfSome, length};
ghost use Rattle.sel_tree.specs.FirstMet.{first_met_from};
ghost use Rattle.ts_narrow.specs.inner.Listed.{regions_in};

use crate::NoMemory;
use sel_box::{AnyBox, RegionList};
use sel_tree::BoxTree;
use spd_cut::Entry;
use std::alloc::Global;
use std::marker::Model;

/// The inbound entries of a policy, arranged so that those that meet a region are found without a
/// look at each. A contract sees the list of the entries.
#[derive(Drop)]
pub struct Inbound<'a> {
    entries: &'a [Entry],
    regions: BoxTree,
}

impl<'a> Model for Inbound<'a> {
    ghost use Rattle.std.specs.Prelude.{◌≡◌, List};
    ghost use Rattle.spd_cut.specs.declared.entry.Entry.{Entry};
    ghost use Rattle.ts_narrow.specs.inner.Listed.{regions_in};

    ghost Value = { List Entry };

    ghost view = { λ i. i.entries.now };

    ghost invariant = { λ i. i.regions ≡ regions_in i.entries.now };
}

impl<'a> Inbound<'a> {
    /// These entries, in order. Takes time by n log n of their number, and memory for a tree of
    /// their regions (`sel_tree::BoxTree`).
    pub fn new(alloc: Global, entries: &'a [Entry]) -> Result<Self, NoMemory>
        ensures { IfOk result (λ inbound. inbound ≡ entries.now) }
    {
        let list = regions_in(alloc, entries)?;
        let regions = BoxTree::from_list(alloc, list)?;
        Ok(Inbound { entries, regions })
    }

    /// The entries, in order.
    pub fn as_slice(&self) -> &[Entry]
        ensures { result.now ≡ self.now }
    {
        self.entries
    }

    /// The index of the first entry, from an index on, that meets the region.
    pub fn next_met(&self, from: usize, region: &AnyBox) -> Option<usize>
        ensures first { result ≡ first_met_from from region.now (regions_in self.now) }
        ensures within { IfSome result (λ index. index < length self.now) }
    {
        sel_tree::laws::the_first_box_that_meets_is_found();
        self.regions.first_met(from, region)
    }
}

// The regions of the entries, in order.
fn regions_in(alloc: Global, entries: &[Entry]) -> Result<RegionList, NoMemory>
    ensures { IfOk result (λ list. list ≡ regions_in entries.now) }
{
    let mut list = RegionList::new(alloc);
    for entry in entries {
        list.push(entry.region)?;
    }
    Ok(list)
}
