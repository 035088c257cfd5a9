ghost use Rattle.std.specs.Prelude.{◌≡◌};
ghost use Rattle.std.specs.List.{list_any};
ghost use Rattle.spd_line.specs.Families.{is_range_of_family};
ghost use Rattle.spd_line.specs.Selects.{address_has, has_direction, lies_in, port_has};
ghost use Rattle.spd_line.specs.Selects.{protocol_has, selects};

use crate::{Address, AddressItem, AddressList, Line, PortItem, PortList, ProtocolItem, Way};
use sel_box::{Direction, OPAQUE_FIELD, OPAQUE_PROTOCOL, Point};
use sel_text::Family;

/// Whether the line selects the point in the direction: it is looked at in that direction, and each
/// of its five selectors has the point's value (RFC 4301 section 4.4.1.1). Takes time by the number
/// of its items.
pub fn matches(line: &Line, direction: Direction, point: &Point) -> bool
    ensures { result ≡ selects direction point.now line.now }
{
    let parts = line.parts();
    has_direction(parts.way, direction)
        && has_protocol(parts.protocol, point.protocol())
        && have_address(&parts.local, point.family(), point.local())
        && have_address(&parts.remote, point.family(), point.remote())
        && have_field(&parts.local_port, point.local_field())
        && have_field(&parts.remote_port, point.remote_field())
}

// Whether a line of that way is looked at in the direction.
pub fn has_direction(way: Way, direction: Direction) -> bool
    ensures { result ≡ has_direction way direction }
{
    matches!(
        (way, direction),
        (Way::Both, _) | (Way::Outbound, Direction::Outbound) | (Way::Inbound, Direction::Inbound)
    )
}

fn has_protocol(item: ProtocolItem, protocol: u16) -> bool
    ensures { result ≡ protocol_has item protocol }
{
    match item {
        ProtocolItem::Any => true,
        ProtocolItem::Opaque => protocol == OPAQUE_PROTOCOL,
        ProtocolItem::Number(number) => protocol == u16::from(number),
    }
}

// Whether some item has the address of the family.
fn have_address(items: &AddressList, family: Family, address: u128) -> bool
    ensures { result ≡ list_any (address_has family address) items.now }
{
    items.iter().any(|item| has_address(item, family, address))
}

fn has_address(item: &AddressItem, family: Family, address: u128) -> bool
    ensures { result ≡ address_has family address item.now }
{
    match item {
        AddressItem::Any => true,
        AddressItem::Range { first, last } => {
            is_range_of_family(family, *first, *last)
                && lies_between(first.value(), last.value(), address)
        }
    }
}

// Whether a range from one address to another is of the family.
pub fn is_range_of_family(family: Family, first: Address, last: Address) -> bool
    ensures { result ≡ is_range_of_family family first last }
{
    family == first.family() && family == last.family()
}

// Whether some item has the field.
fn have_field(items: &PortList, field: u32) -> bool
    ensures { result ≡ list_any (port_has field) items.now }
{
    items.iter().any(|item| has_field(item, field))
}

fn has_field(item: &PortItem, field: u32) -> bool
    ensures { result ≡ port_has field item.now }
{
    match item {
        PortItem::Any => true,
        PortItem::Opaque => field == OPAQUE_FIELD,
        PortItem::Number { first, last } | PortItem::TypeCode { first, last } => {
            lies_between(u128::from(*first), u128::from(*last), u128::from(field))
        }
    }
}

// Whether the number lies from the first to the last, both included.
#[inline]
fn lies_between(first: u128, last: u128, number: u128) -> bool
    ensures { result ≡ lies_in first last number }
{
    first <= number && number <= last
}
