ghost use Rattle.std.specs.Prelude.{◌≡◌, ◌<◌, ◌≤◌, IfSome, IfNone, IfOk, length};
ghost use Rattle.pair_gap.specs.inner.Peer.{ArePassed, mirrored};

use crate::pairs::are_judged_alike;
use crate::runs::runs;
use lists::{List, NoMemory};
use sel_box::{RegionList, swap};
use sel_tree::BoxTree;
use spd_cut::Entry;
use std::alloc::Global;
use std::marker::Model;

/// The inbound entries of the other gateway of a pair, arranged so that those that meet an entry of
/// the first are found without a look at each. A contract sees the list of the entries.
#[derive(Debug, Drop)]
pub struct PeerEntries<'a> {
    entries: &'a [Entry],
    // Their regions as the first gateway sees them.
    regions: BoxTree,
    // For each entry, the index up to which those behind it are judged as it is.
    ends: List<usize>,
}

impl<'a> Model for PeerEntries<'a> {
    ghost use Rattle.std.specs.Prelude.{List};
    ghost use Rattle.spd_cut.specs.declared.entry.Entry.{Entry};
    ghost use Rattle.pair_gap.specs.inner.Peer.{IsKeptOf};

    ghost Value = { List Entry };

    ghost view = { λ p. p.entries.now };

    ghost invariant = { λ p. IsKeptOf p.entries.now p.regions p.ends };
}

impl<'a> PeerEntries<'a> {
    /// These entries, in order. Takes time by n log n of their number, and memory for a tree of
    /// their regions (`sel_tree::BoxTree`).
    pub fn new(alloc: Global, entries: &'a [Entry]) -> Result<Self, NoMemory>
        ensures { IfOk result (λ peer. peer ≡ entries.now) }
    {
        let mirrored = mirror(alloc, entries)?;
        Ok(PeerEntries {
            entries,
            regions: BoxTree::new(alloc, mirrored.as_slice())?,
            ends: runs(alloc, entries)?,
        })
    }

    /// The entries, in order.
    pub fn as_slice(&self) -> &[Entry]
        ensures { result.now ≡ self.now }
    {
        self.entries
    }

    // The index, from one on, of an entry that may differ from this one of the first gateway. Those
    // before it, or all where there is none, are judged alike or have no point in common with it.
    pub(crate) fn next(&self, from: usize, entry: &Entry) -> Option<usize>
        ensures low { IfSome result (λ index. from ≤ index) }
        ensures within { IfSome result (λ index. index < length self.now) }
        ensures passed { IfSome result (ArePassed entry.now self.now from) }
        ensures none { IfNone result (ArePassed entry.now self.now from (length self.now)) }
    {
        sel_tree::laws::the_first_box_that_meets_is_found();
        let mut first = from;
        while let Some(index) = self.regions.first_met(first, &entry.region) {
            if !are_judged_alike(entry, &self.entries[index]) {
                return Some(index);
            }
            first = self.ends.as_slice()[index];
        }
        None
    }
}

// The regions of the entries, with their sides exchanged.
fn mirror(alloc: Global, entries: &[Entry]) -> Result<RegionList, NoMemory>
    ensures { IfOk result (λ list. list ≡ mirrored entries.now) }
{
    let mut list = RegionList::new(alloc);
    for entry in entries {
        list.push(swap(&entry.region))?;
    }
    Ok(list)
}
