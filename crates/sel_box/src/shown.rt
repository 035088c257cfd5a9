ghost use Rattle.std.specs.Prelude.{◌≡◌};
ghost use Rattle.sel_box.specs.Boxes.{ranges_of};

use crate::any_box::{AnyBox, AxisName};
use crate::class::{ClassRow, OPAQUE_FIELD};
use crate::class_table::classes;
use crate::packet::allows_protocol;
use sel_region::{Field, Interval, Pair, Proto, Region};
use sel_text::Family;

// What a packet has to show to be seen in a box, of which it has the least addresses: its protocol
// and its fields lie in these ranges.
#[derive(Clone, Copy)]
pub struct PacketRanges {
    pub family: Family,
    pub source: u128,
    pub destination: u128,
    protocols: Interval<Proto>,
    source_fields: Interval<Field>,
    destination_fields: Interval<Field>,
}

// What a packet shows beside its addresses.
#[derive(Clone, Copy)]
pub struct Shown {
    pub protocol: u16,
    pub source_field: u32,
    pub destination_field: u32,
}

impl PacketRanges {
    ghost use Rattle.std.specs.Prelude.{true, false, IfSome, IfNone, is_some};
    ghost use Rattle.sel_box.specs.Classes.{shape_allows};
    ghost use Rattle.sel_box.specs.inner.Shown.{HasNoneShown, IsLeastShown, inbound_ranges};
    ghost use Rattle.sel_box.specs.inner.Shown.{least_fields, outbound_ranges, row_shows};
    ghost use Rattle.sel_box.specs.inner.Shown.{rows_show, shows_in};
    ghost use Rattle.sel_box.specs.SomePoint.{has_addresses};

    // Those of the box for a packet that goes out.
    #[inline]
    pub fn outbound(region: &AnyBox) -> PacketRanges
        ensures value { result ≡ outbound_ranges region.now }
        ensures addresses { has_addresses region.now ≡ true }
    {
        let selectors = selectors_of(region);
        PacketRanges {
            family: region.family(),
            source: region.low_of(AxisName::Local),
            destination: region.low_of(AxisName::Remote),
            protocols: selectors.first,
            source_fields: selectors.second.first,
            destination_fields: selectors.second.second,
        }
    }

    // Those of the box for a packet that comes in.
    #[inline]
    pub fn inbound(region: &AnyBox) -> PacketRanges
        ensures { result ≡ inbound_ranges region.now }
    {
        let selectors = selectors_of(region);
        PacketRanges {
            family: region.family(),
            source: region.low_of(AxisName::Remote),
            destination: region.low_of(AxisName::Local),
            protocols: selectors.first,
            source_fields: selectors.second.second,
            destination_fields: selectors.second.first,
        }
    }

    // Whether some packet shows a protocol and fields in these ranges.
    #[inline]
    pub fn show_some(&self) -> bool
        ensures { result ≡ shows_in self.now }
    {
        self.least().is_some()
    }

    // The least protocol, and for it the least fields, that a packet shows in these ranges.
    pub fn least(&self) -> Option<Shown>
        ensures found { IfSome result (IsLeastShown self.now) }
        ensures none { IfNone result (HasNoneShown self.now) }
        ensures test { is_some result ≡ shows_in self.now }
    {
        self.first_shown(&classes().rows)
    }

    // The least of the first row whose packets show something.
    fn first_shown(&self, rows: &[ClassRow]) -> Option<Shown>
        ensures { result ≡ rows_show self.now rows.now }
    {
        for row in rows {
            if let Some(shown) = self.least_of(row) {
                return Some(shown);
            }
        }
        None
    }

    // The least that the packets of the row's protocols show.
    fn least_of(&self, row: &ClassRow) -> Option<Shown>
        ensures { result ≡ row_shows self.now row.now }
    {
        let protocol = row.first.max(self.protocols.low_value() as u16);
        if protocol > row.last
            || u128::from(protocol) > self.protocols.high_value()
            || !allows_protocol(self.family, protocol)
        {
            return None;
        }
        let (source_field, destination_field) = self.least_fields(row)?;
        Some(Shown {
            protocol,
            source_field,
            destination_field,
        })
    }

    // The least fields that they show: each the least of its range, or OPAQUE.
    fn least_fields(&self, row: &ClassRow) -> Option<(u32, u32)>
        ensures { result ≡ least_fields (shape_allows row.now.shape row.now.top)
            self.now.source_fields self.now.destination_fields }
    {
        let source = self.source_fields.low_value() as u32;
        let destination = self.destination_fields.low_value() as u32;
        let opaque = u128::from(OPAQUE_FIELD);
        if row.allows(source, destination) {
            Some((source, destination))
        } else if self.destination_fields.has(&opaque) && row.allows(source, OPAQUE_FIELD) {
            Some((source, OPAQUE_FIELD))
        } else if self.source_fields.has(&opaque)
            && self.destination_fields.has(&opaque)
            && row.allows(OPAQUE_FIELD, OPAQUE_FIELD)
        {
            Some((OPAQUE_FIELD, OPAQUE_FIELD))
        } else {
            None
        }
    }
}

// The box's ranges of protocols, local fields and remote fields.
#[inline]
fn selectors_of(region: &AnyBox) -> Pair<Interval<Proto>, Pair<Interval<Field>, Interval<Field>>>
    ensures { result ≡ (ranges_of region.now).second.second }
{
    match region {
        AnyBox::Four(ranges) => ranges.second.second,
        AnyBox::Six(ranges) => ranges.second.second,
    }
}
