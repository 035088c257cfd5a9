ghost use Rattle.std.specs.Prelude.{◌≡◌, ◌++◌, IfOk, OnOk};
ghost use Rattle.std.specs.Option.{option_to_list};
ghost use Rattle.pair_gap.specs.GapRegions.{gap_region, gap_regions, regions_with};

use crate::NoMemory;
use crate::pairs::region_between;
use crate::peer::PeerEntries;
use sel_box::RegionList;
use spd_cut::Entry;
use std::alloc::Global;

/// All regions in which two gateways differ: for each pair of entries that are judged differently
/// what both have in common, seen as A's outbound points, where a packet lies in it. They come in
/// the order of A's entries, and within it of B's.
///
/// Takes time by the number of A's entries and of such pairs, and memory for the regions.
pub fn gaps(
    alloc: Global,
    a_outbound: &[Entry],
    b_inbound: &PeerEntries,
) -> Result<RegionList, NoMemory>
    ensures { IfOk result (λ list. list ≡ gap_regions a_outbound.now b_inbound.now) }
{
    let mut list = RegionList::new(alloc);
    for entry in a_outbound {
        put_regions(&mut list, entry, b_inbound)?;
    }
    Ok(list)
}

// Puts those of an entry of A at the end.
fn put_regions(list: &mut RegionList, entry: &Entry, peer: &PeerEntries) -> Result<(), NoMemory>
    ensures { OnOk result (list.new ≡ list.old ++ regions_with entry.now peer.now) }
{
    let mut from = 0;
    while let Some(index) = peer.next(from, entry) {
        put_region(list, entry, &peer.as_slice()[index])?;
        from = index + 1;
    }
    Ok(())
}

// Puts that of a pair at the end, where there is one.
fn put_region(list: &mut RegionList, ours: &Entry, theirs: &Entry) -> Result<(), NoMemory>
    ensures { OnOk result (
        list.new ≡ list.old ++ option_to_list (gap_region ours.now theirs.now)) }
{
    match region_between(ours, theirs) {
        Some(region) => list.push(region),
        None => Ok(()),
    }
}
