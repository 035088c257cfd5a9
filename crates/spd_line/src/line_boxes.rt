ghost use Rattle.std.specs.Prelude.{◌≡◌, ◌≤◌, ◌++◌, IfOk, OnOk, length, map};
ghost use Rattle.sel_text.specs.Family.{last_address};
ghost use Rattle.spd_line.specs.LineBoxes.{field_ranges, final_list, line_box, line_boxes};
ghost use Rattle.spd_line.specs.LineBoxes.{line_ranges};

use crate::product_list::products;
use crate::ranges::{ranges_of_addresses, ranges_of_ports, ranges_of_protocol};
use crate::select::has_direction;
use crate::verdict::judge_by;
use crate::{Judgement, Line, LineParts, NoMemory};
use sel_box::{AnyBox, Box4, Box6, Direction, Family, OfFamily, Ranges};
use sel_region::{Axis, Field, Interval, Pair, Proto, Region};
use std::alloc::Global;
use std::mem::size_of;

/// A box of a line, and how the line judges its points (RFC 4301 sections 4.4.1 and 5).
#[derive(Clone, Copy, Debug, PartialEq, Eq)]
pub struct LineBox {
    pub region: AnyBox,
    pub judgement: Judgement,
}

const _: () = prove!(size_of::<LineBox>() <= 208);

/// A list of boxes, each with a judgement.
pub type BoxList = lists::List<LineBox>;

/// Boxes that are looked up together.
pub type Group = lists::List<LineBox>;

// The ranges of a box that are alike in both families: protocol, local and remote field.
type FieldRanges = Pair<Interval<Proto>, Pair<Interval<Field>, Interval<Field>>>;

/// The boxes of the points that the line selects in the direction (RFC 4301 section 4.4.1.1), each
/// with the line's judgement there, at most 4,096; none where the line lacks the direction.
///
/// IPv4 comes before IPv6, and then the local ranges in the order of their items, within each the
/// remote ranges, then the protocol, the local ports and the remote ports. ANY as an address is one
/// range of each family. A flagged ANY as protocol or port makes two boxes, its numbers and then
/// OPAQUE, and the one with OPAQUE is judged DISCARD. Takes time and memory by the number of boxes
/// and of the line's items.
pub fn boxes(alloc: Global, line: &Line, direction: Direction) -> Result<BoxList, NoMemory>
    ensures boxes { IfOk result (λ list. list ≡ line_boxes direction line.now) }
    ensures few { IfOk result (λ list. length list ≤ 4096) }
{
    let parts = line.parts();
    let mut list = BoxList::new(alloc);
    if !has_direction(parts.way, direction) {
        return Ok(list);
    }
    let fields = field_products(alloc, parts)?;
    let four: Vec<Box4> = family_products(alloc, Family::Four, parts, &fields)?;
    put_boxes(&mut list, line, direction, &four)?;
    let six: Vec<Box6> = family_products(alloc, Family::Six, parts, &fields)?;
    put_boxes(&mut list, line, direction, &six)?;
    Ok(list)
}

/// The boxes of `final`, the line behind the last, in either direction: all points of IPv4 and all
/// points of IPv6, both discarded (RFC 4301 section 4.4.1). Takes no memory.
pub fn final_boxes() -> [LineBox; 2]
    ensures { result ≡ final_list }
{
    [Family::Four, Family::Six].map(|family| LineBox {
        region: AnyBox::whole(family),
        judgement: Judgement::Discard,
    })
}

// The products of the ranges that are alike in both families.
fn field_products(alloc: Global, parts: &LineParts) -> Result<Vec<FieldRanges>, NoMemory>
    ensures { IfOk result (λ list. list.items ≡ field_ranges parts.now) }
{
    let protocol = ranges_of_protocol(alloc, parts.pfp.protocol, parts.protocol)?;
    let local_port = ranges_of_ports(alloc, parts.pfp.local_port, parts.local_port.as_slice())?;
    let remote_port = ranges_of_ports(alloc, parts.pfp.remote_port, parts.remote_port.as_slice())?;
    let ports = products(alloc, &local_port, &remote_port)?;
    products(alloc, &protocol, &ports)
}

// The products of a family's ranges, where its axis is this one. Where the line has no local range
// of the family, nothing is made of the remote ones.
#[tactic(auto, unfolding(crate::specs::LineBoxes::line_ranges))]
fn family_products<A: Axis>(
    alloc: Global,
    family: Family,
    parts: &LineParts,
    fields: &[FieldRanges],
) -> Result<Vec<Ranges<A>>, NoMemory>
    requires axis { A.LAST ≡ last_address family }
    requires fields { fields.now ≡ field_ranges parts.now }
    ensures { IfOk result (λ list. list.items ≡ line_ranges family parts.now) }
{
    let local = ranges_of_addresses(alloc, family, parts.local.as_slice())?;
    if local.as_slice().is_empty() {
        return Ok(Vec::new(alloc));
    }
    let remote = ranges_of_addresses(alloc, family, parts.remote.as_slice())?;
    let remote = products(alloc, &remote, fields)?;
    products(alloc, &local, &remote)
}

// Puts boxes of one family at the end.
fn put_boxes<B: OfFamily>(
    list: &mut BoxList,
    line: &Line,
    direction: Direction,
    boxes: &[B],
) -> Result<(), NoMemory>
    ensures { OnOk result (list.new ≡ list.old ++ map (line_box direction line.now)
        (map B.region boxes.now)) }
{
    for one in boxes {
        list.push(judged_box(line, direction, one.region()))?;
    }
    Ok(())
}

// The box with the judgement of its low point, which is that of all its points.
fn judged_box(line: &Line, direction: Direction, region: AnyBox) -> LineBox
    ensures { result ≡ line_box direction line.now region }
{
    LineBox {
        region,
        judgement: judge_by(line, direction, &region.low()),
    }
}
