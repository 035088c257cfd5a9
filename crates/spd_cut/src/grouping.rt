ghost use Rattle.std.specs.Prelude.{◌≡◌, ◌++◌, IfOk, OnOk};
ghost use Rattle.std.specs.Option.{option_to_list};
ghost use Rattle.spd_cut.specs.Group.{fits_family, group_of, group_part, pin_bounds};
ghost use Rattle.spd_cut.specs.Group.{pin_box, pinned_part};

use crate::{Entry, NoMemory};
use sel_box::{AnyBox, Family, OPAQUE_FIELD, OPAQUE_PROTOCOL, Region};
use spd_line::{Group, LineBox, Pins};
use std::alloc::Global;

/// The group of a line and of the values that its flags take from a packet: the entries that are
/// linked to the line, in order, each as far as it has these values (RFC 4301 sections 4.4.1.2 and
/// 4.4.2). Entries that have none of them are left out.
///
/// Takes time by the number of entries, and memory for those of the group.
pub fn group(alloc: Global, entries: &[Entry], link: u32, pins: &Pins) -> Result<Group, NoMemory>
    ensures { IfOk result (λ list. list ≡ group_of entries.now link pins.now) }
{
    let mut list = Group::new(alloc);
    for entry in entries {
        put_part(&mut list, entry, link, pins)?;
    }
    Ok(list)
}

// Puts what an entry gives at the end.
fn put_part(list: &mut Group, entry: &Entry, link: u32, pins: &Pins) -> Result<(), NoMemory>
    ensures { OnOk result (
        list.new ≡ list.old ++ option_to_list (group_part link pins.now entry.now)) }
{
    if entry.link != link {
        return Ok(());
    }
    match pinned_part(&entry.region, pins) {
        Some(region) => list.push(LineBox {
            region,
            judgement: entry.judgement,
        }),
        None => Ok(()),
    }
}

// The points of a box that have the values.
fn pinned_part(region: &AnyBox, pins: &Pins) -> Option<AnyBox>
    ensures { result ≡ pinned_part pins.now region.now }
{
    region.meet(&pin_box(region.family(), pins)?)
}

// The points of a family that have the values.
fn pin_box(family: Family, pins: &Pins) -> Option<AnyBox>
    ensures { result ≡ pin_box family pins.now }
{
    if !fits_family(pins.family, family) {
        return None;
    }
    let address = family.last_address();
    AnyBox::new(
        family,
        [
            bounds(address, pins.local),
            bounds(address, pins.remote),
            bounds(u128::from(OPAQUE_PROTOCOL), wide_protocol(pins.protocol)),
            bounds(u128::from(OPAQUE_FIELD), wide_field(pins.local_field)),
            bounds(u128::from(OPAQUE_FIELD), wide_field(pins.remote_field)),
        ],
    )
}

// A pinned protocol in the width of a bound.
fn wide_protocol(pinned: Option<u16>) -> Option<u128>
    ensures { result ≡ pinned }
{
    pinned.map(u128::from)
}

// A pinned field in the width of a bound.
fn wide_field(pinned: Option<u32>) -> Option<u128>
    ensures { result ≡ pinned }
{
    pinned.map(u128::from)
}

// The value alone, or where there is none the whole axis up to its last number.
fn bounds(last: u128, pinned: Option<u128>) -> (u128, u128)
    ensures { result ≡ pin_bounds last pinned }
{
    match pinned {
        Some(value) => (value, value),
        None => (0, last),
    }
}

// Whether the family is the pinned one, where there is one.
fn fits_family(pinned: Option<Family>, family: Family) -> bool
    ensures { result ≡ fits_family pinned family }
{
    match pinned {
        Some(pinned) => pinned == family,
        None => true,
    }
}
