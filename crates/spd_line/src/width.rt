ghost use Rattle.std.specs.Prelude.{◌≡◌, ◌*◌, min};
ghost use Rattle.spd_line.specs.Fault.{is_too_wide};
ghost use Rattle.spd_line.specs.Width.{box_count, family_pairs, item_parts, port_parts};
ghost use Rattle.spd_line.specs.Width.{protocol_parts, range_pairs};

use crate::families::count_of;
use crate::{LineParts, PortItem, ProtocolItem};
use sel_text::Family;

// The most boxes of a line.
const MOST_BOXES: usize = 4096;

// Whether the parts have more boxes than a line may. Counts saturate, so no product wraps.
pub fn is_too_wide(parts: &LineParts) -> bool
    ensures { result ≡ is_too_wide parts.now }
{
    count_boxes(parts) > MOST_BOXES
}

#[tactic(auto, using(crate::proofs::Saturated::saturated_boxes))]
fn count_boxes(parts: &LineParts) -> usize
    ensures { result ≡ min (box_count parts.now) usize.MAX }
{
    let protocol = count_protocol_parts(parts.pfp.protocol, parts.protocol);
    let local = count_port_parts(parts.pfp.local_port, parts.local_port.as_slice());
    let remote = count_port_parts(parts.pfp.remote_port, parts.remote_port.as_slice());
    count_pairs(parts).saturating_mul(protocol.saturating_mul(local.saturating_mul(remote)))
}

// The pairs of a local and a remote range of one family.
fn count_pairs(parts: &LineParts) -> usize
    ensures { result ≡ min (range_pairs parts.now) usize.MAX }
{
    count_of_family(Family::Four, parts).saturating_add(count_of_family(Family::Six, parts))
}

fn count_of_family(family: Family, parts: &LineParts) -> usize
    ensures { result ≡ min (family_pairs family parts.now) usize.MAX }
{
    count_of(family, &parts.local).saturating_mul(count_of(family, &parts.remote))
}

fn count_protocol_parts(is_flagged: bool, item: ProtocolItem) -> usize
    ensures { result ≡ protocol_parts is_flagged item }
{
    match (is_flagged, item) {
        (true, ProtocolItem::Any) => 2,
        _ => 1,
    }
}

fn count_port_parts(is_flagged: bool, items: &[PortItem]) -> usize
    ensures { result ≡ min (port_parts is_flagged items.now) usize.MAX }
{
    let mut parts: usize = 0;
    for item in items {
        parts = parts.saturating_add(count_item_parts(is_flagged, item));
    }
    parts
}

fn count_item_parts(is_flagged: bool, item: &PortItem) -> usize
    ensures { result ≡ item_parts is_flagged item.now }
{
    match (is_flagged, item) {
        (true, PortItem::Any) => 2,
        _ => 1,
    }
}
