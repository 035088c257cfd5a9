ghost use Rattle.std.specs.Prelude.{◌≡◌, ◌<◌, ◌++◌, IfOk, OnOk};
ghost use Rattle.std.specs.List.{flat_map};
ghost use Rattle.std.specs.Option.{option_to_list};
ghost use Rattle.sel_text.specs.Family.{last_address};
ghost use Rattle.sel_text.specs.declared.item.AddressItem.{AddressItem};
ghost use Rattle.spd_line.specs.LineBoxes.{address_ranges, any_ranges, port_ranges};
ghost use Rattle.spd_line.specs.LineBoxes.{protocol_ranges};

use crate::select::is_range_of_family;
use crate::{Address, AddressItem, NoMemory, PortItem, ProtocolItem};
use sel_region::{Axis, Field, Interval, Proto};
use sel_text::Family;
use std::alloc::Global;

// The ranges of an address selector in a family, whose axis it is, in the order of its items.
pub fn ranges_of_addresses<A: Axis>(
    alloc: Global,
    family: Family,
    items: &[AddressItem],
) -> Result<Vec<Interval<A>>, NoMemory>
    requires { A.LAST ≡ last_address family }
    ensures { IfOk result (λ ranges. ranges.items ≡ flat_map (address_ranges family) items.now) }
{
    let mut ranges = Vec::new(alloc);
    for item in items {
        put(&mut ranges, range_of(family, item))?;
    }
    Ok(ranges)
}

// The ranges of a protocol selector.
pub fn ranges_of_protocol(
    alloc: Global,
    is_flagged: bool,
    item: ProtocolItem,
) -> Result<Vec<Interval<Proto>>, NoMemory>
    ensures { IfOk result (λ ranges. ranges.items ≡ protocol_ranges is_flagged item) }
{
    let mut ranges = Vec::new(alloc);
    put_protocol(&mut ranges, is_flagged, item)?;
    Ok(ranges)
}

// The ranges of a port selector, in the order of its items.
pub fn ranges_of_ports(
    alloc: Global,
    is_flagged: bool,
    items: &[PortItem],
) -> Result<Vec<Interval<Field>>, NoMemory>
    ensures { IfOk result (λ ranges. ranges.items ≡ flat_map (port_ranges is_flagged) items.now) }
{
    let mut ranges = Vec::new(alloc);
    for item in items {
        put_port(&mut ranges, is_flagged, item)?;
    }
    Ok(ranges)
}

fn put_protocol(
    ranges: &mut Vec<Interval<Proto>>,
    is_flagged: bool,
    item: ProtocolItem,
) -> Result<(), NoMemory>
    ensures { OnOk result (ranges.new.items ≡ ranges.old.items ++ protocol_ranges is_flagged item) }
{
    match item {
        ProtocolItem::Any => put_any(ranges, is_flagged),
        ProtocolItem::Opaque => put(ranges, Interval::new(Proto::LAST, Proto::LAST)),
        ProtocolItem::Number(number) => put(
            ranges,
            Interval::new(u128::from(number), u128::from(number)),
        ),
    }
}

#[tactic(auto, using(crate::proofs::Listed::range_on_fields))]
fn put_port(
    ranges: &mut Vec<Interval<Field>>,
    is_flagged: bool,
    item: &PortItem,
) -> Result<(), NoMemory>
    ensures { OnOk result (ranges.new.items ≡ ranges.old.items ++ port_ranges is_flagged item.now) }
{
    match item {
        PortItem::Any => put_any(ranges, is_flagged),
        PortItem::Opaque => put(ranges, Interval::new(Field::LAST, Field::LAST)),
        PortItem::Number { first, last } | PortItem::TypeCode { first, last } => {
            put(ranges, Interval::new(u128::from(*first), u128::from(*last)))
        }
    }
}

// The range of an address item in a family, where it has addresses of that family.
fn range_of<A: Axis>(family: Family, item: &AddressItem) -> Option<Interval<A>>
    requires { A.LAST ≡ last_address family }
    ensures { option_to_list result ≡ address_ranges family item.now }
{
    match item {
        AddressItem::Any => Interval::new(0, A::LAST),
        AddressItem::Range { first, last } => range_between(family, *first, *last),
    }
}

// The range from one address to another, where both are of the family.
fn range_between<A: Axis>(family: Family, first: Address, last: Address) -> Option<Interval<A>>
    requires { A.LAST ≡ last_address family }
    ensures { option_to_list result ≡ address_ranges family (AddressItem.Range first last) }
{
    if is_range_of_family(family, first, last) {
        Interval::new(first.value(), last.value())
    } else {
        None
    }
}

// Puts all values of a selector at the end: in one range, or where the selector is flagged in two,
// its numbers and then OPAQUE, of which no packet has a value to populate from.
fn put_any<A: Axis>(ranges: &mut Vec<Interval<A>>, is_flagged: bool) -> Result<(), NoMemory>
    requires { 0 < A.LAST }
    ensures { OnOk result (ranges.new.items ≡ ranges.old.items ++ any_ranges is_flagged A.LAST) }
{
    if is_flagged {
        put(ranges, Interval::new(0, A::LAST - 1))?;
        put(ranges, Interval::new(A::LAST, A::LAST))
    } else {
        put(ranges, Interval::new(0, A::LAST))
    }
}

// Puts a range at the end, where there is one: a first number that is above the last gives none.
fn put<A: Axis>(ranges: &mut Vec<Interval<A>>, range: Option<Interval<A>>) -> Result<(), NoMemory>
    ensures { OnOk result (ranges.new.items ≡ ranges.old.items ++ option_to_list range) }
{
    if let Some(range) = range {
        ranges.push(range)?;
    }
    Ok(())
}
