ghost use Rattle.std.specs.Prelude.{◌≡◌, ◌++◌, IfOk, OnOk};
ghost use Rattle.std.specs.Option.{option_to_list};
ghost use Rattle.ts_narrow.specs.Meets as listed;

use crate::NoMemory;
use crate::inbound::Inbound;
use crate::meets::meet_of;
use sel_box::RegionList;
use spd_cut::Entry;
use std::alloc::Global;

// The regions of the meets of a line.
#[tactic(auto, unfolding(crate::specs::Meets::meets, crate::specs::Meets::regions_of))]
pub fn regions_of(
    alloc: Global,
    outbound: &[Entry],
    inbound: &Inbound,
    link: u32,
) -> Result<RegionList, NoMemory>
    ensures { IfOk result (λ list. list
        ≡ listed.regions_of link (listed.meets outbound.now inbound.now)) }
{
    let mut list = RegionList::new(alloc);
    for e in outbound {
        put_regions_with(&mut list, e, inbound, link)?;
    }
    Ok(list)
}

// Puts those of one outbound entry at the end. Only inbound entries are looked at that meet it, and
// none where it is of another line.
fn put_regions_with(
    list: &mut RegionList,
    e: &Entry,
    inbound: &Inbound,
    link: u32,
) -> Result<(), NoMemory>
    ensures { OnOk result (list.new ≡ list.old
        ++ listed.regions_of link (listed.meets_with e.now inbound.now)) }
{
    if e.link != link {
        return Ok(());
    }
    sel_tree::laws::the_first_box_that_meets_is_found();
    let mut from = 0;
    while let Some(index) = inbound.next_met(from, &e.region) {
        put_region_of(list, e, &inbound.as_slice()[index], link)?;
        from = index + 1;
    }
    Ok(())
}

// Puts that of the meet of two entries at the end, where there is one and it is of the line.
#[tactic(auto, unfolding(crate::specs::Meets::regions_of))]
fn put_region_of(list: &mut RegionList, e: &Entry, f: &Entry, link: u32) -> Result<(), NoMemory>
    ensures { OnOk result (list.new ≡ list.old
        ++ listed.regions_of link (option_to_list (listed.meet_of e.now f.now))) }
{
    match meet_of(e, f) {
        Some(meet) if meet.link == link => list.push(meet.region),
        _ => Ok(()),
    }
}
