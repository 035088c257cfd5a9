ghost use Rattle.std.specs.Prelude.{◌≡◌, IsTrue};
ghost use Rattle.std.specs.Bool.{OnTrue};
ghost use Rattle.pair_gap.specs.GapRegions.{gap_region, with_packet};
ghost use Rattle.pair_gap.specs.LeastGap.{common_region, gap_of, lesser};
ghost use Rattle.pair_gap.specs.LeastPacketOf.{least_packet_of};
ghost use Rattle.pair_gap.specs.inner.Peer.{HasNoLesser};
ghost use Rattle.sel_box.specs.LeastPacket.{packet_at_most};
ghost use Rattle.spd_line.specs.Agree.{same_judgement};

use crate::gap::Gap;
use sel_box::{AnyBox, Packet, Region, least_packet, swap};
use spd_cut::Entry;
use spd_line::Verdict;

// Whether two entries are judged alike.
pub fn are_judged_alike(ours: &Entry, theirs: &Entry) -> bool
    ensures { result ≡ same_judgement ours.now.judgement theirs.now.judgement }
{
    ours.judgement == theirs.judgement
}

// The points that both entries have, as A sees them.
fn common_region(ours: &Entry, theirs: &Entry) -> Option<AnyBox>
    ensures { result ≡ common_region ours.now theirs.now }
{
    ours.region.meet(&swap(&theirs.region))
}

// The least packet that both entries have, where they are judged differently.
pub fn gap_between(ours: &Entry, theirs: &Entry) -> Option<Gap>
    ensures { result ≡ gap_of ours.now theirs.now }
{
    if are_judged_alike(ours, theirs) {
        return None;
    }
    let region = common_region(ours, theirs)?;
    let packet = first_packet(&region)?;
    Some(Gap {
        packet,
        a: verdict_of(ours),
        b: verdict_of(theirs),
    })
}

// What both entries have in common, where they are judged differently and a packet lies in it.
pub fn region_between(ours: &Entry, theirs: &Entry) -> Option<AnyBox>
    ensures { result ≡ gap_region ours.now theirs.now }
{
    if are_judged_alike(ours, theirs) {
        return None;
    }
    let region = common_region(ours, theirs)?;
    if least_packet(&region).is_some() {
        Some(region)
    } else {
        None
    }
}

// The verdict of an entry on its points.
fn verdict_of(entry: &Entry) -> Verdict
    ensures line { result.line ≡ entry.now.link }
    ensures judgement { result.judgement ≡ entry.now.judgement }
{
    Verdict {
        line: entry.link,
        judgement: entry.judgement,
    }
}

// The least packet of a box.
fn first_packet(region: &AnyBox) -> Option<Packet>
    ensures { result ≡ least_packet_of region.now }
{
    sel_box::laws::packet_order();
    least_packet(region)
}

// The gap of the lesser packet, the first where both have one packet.
pub fn lesser(best: Option<Gap>, found: Option<Gap>) -> Option<Gap>
    ensures { result ≡ lesser best found }
{
    match (best, found) {
        (None, found) => found,
        (best, None) => best,
        (Some(best), Some(found)) => {
            if is_at_most(&best.packet, &found.packet) {
                Some(best)
            } else {
                Some(found)
            }
        }
    }
}

// Whether the entry has no packet before that of the gap, so that none of its gaps is lesser.
pub fn has_no_lesser(best: &Option<Gap>, entry: &Entry) -> bool
    ensures { OnTrue result (HasNoLesser best.now entry.now) }
{
    sel_box::laws::packet_order();
    match (best, least_packet(&entry.region)) {
        (_, None) => true,
        (None, Some(_)) => false,
        (Some(best), Some(first)) => is_at_most(&best.packet, &first),
    }
}

// Whether a packet is the other or comes before it.
fn is_at_most(packet: &Packet, other: &Packet) -> bool
    ensures { result ≡ packet_at_most packet.now other.now }
{
    sel_box::laws::packet_order();
    packet.cmp(other).is_le()
}
