ghost use Rattle.std.specs.Prelude.{◌≡◌, ◌≤◌};
ghost use Rattle.sel_region.specs.Interval.{high_of};
ghost use Rattle.sel_box.specs.Boxes.{axis_range};
ghost use Rattle.sel_box.specs.Bounds.{axis_last, ranges_on};

use crate::class::{OPAQUE_FIELD, OPAQUE_PROTOCOL};
use sel_region::{Axis, Field, Interval, Pair, Proto, V4, V6};
use sel_text::Family;

/// The ranges of a box, where addresses are those of the axis `A`: local and remote address,
/// protocol, local and remote field.
pub type Ranges<A> = Pair<
    Interval<A>,
    Pair<Interval<A>, Pair<Interval<Proto>, Pair<Interval<Field>, Interval<Field>>>>,
>;

/// A box of IPv4.
pub type Box4 = Ranges<V4>;

/// A box of IPv6.
pub type Box6 = Ranges<V6>;

/// A box of either family: the points of the family whose five values each lie in a range (RFC 4301
/// section 4.4.1.1). Two boxes of different families have no point in common.
#[derive(Clone, Copy, Debug, PartialEq, Eq, Hash)]
pub enum AnyBox {
    Four(Box4),
    Six(Box6),
}

const _: () = prove!(size_of::<Box4>() <= 40);

const _: () = prove!(size_of::<AnyBox>() <= 112);

/// The five selectors, in the order in which boxes have them.
#[derive(Clone, Copy, Debug, PartialEq, Eq, PartialOrd, Ord, Hash)]
pub enum AxisName {
    Local,
    Remote,
    Protocol,
    LocalField,
    RemoteField,
}

impl AnyBox {
    ghost use Rattle.sel_box.specs.Boxes.{family_of, range_at};
    ghost use Rattle.sel_box.specs.Bounds.{box_of, last_on, whole_box};

    /// The box of these bounds, a low and a high on each axis in the order of `AxisName`; `None`
    /// exactly where a low is greater than its high, or a high passes its axis: the family's last
    /// address, the protocol 256, a field 65536.
    #[inline]
    pub fn new(family: Family, bounds: [(u128, u128); 5]) -> Option<AnyBox>
        ensures { result ≡ box_of family bounds }
    {
        match family {
            Family::Four => Some(AnyBox::Four(ranges_between(bounds)?)),
            Family::Six => Some(AnyBox::Six(ranges_between(bounds)?)),
        }
    }

    /// All points of a family.
    pub fn whole(family: Family) -> AnyBox
        ensures { result ≡ whole_box family }
    {
        let addresses = (0, family.last_address());
        let protocols = (0, u128::from(OPAQUE_PROTOCOL));
        let fields = (0, u128::from(OPAQUE_FIELD));
        match AnyBox::new(family, [addresses, addresses, protocols, fields, fields]) {
            Some(region) => region,
            None => unreachable!(),
        }
    }

    /// The version of IP.
    #[inline]
    pub fn family(&self) -> Family
        ensures { result ≡ family_of self.now }
    {
        match self {
            AnyBox::Four(_) => Family::Four,
            AnyBox::Six(_) => Family::Six,
        }
    }

    /// The least number on the axis.
    #[inline]
    pub fn low_of(&self, axis: AxisName) -> u128
        ensures value { result ≡ (range_at axis self.now).low }
        ensures on_axis { result ≤ last_on (family_of self.now) axis }
    {
        match self {
            AnyBox::Four(ranges) => ends_on(ranges, axis).0,
            AnyBox::Six(ranges) => ends_on(ranges, axis).0,
        }
    }

    /// The greatest number on the axis.
    #[inline]
    pub fn high_of(&self, axis: AxisName) -> u128
        ensures value { result ≡ high_of (range_at axis self.now) }
        ensures on_axis { result ≤ last_on (family_of self.now) axis }
    {
        match self {
            AnyBox::Four(ranges) => ends_on(ranges, axis).1,
            AnyBox::Six(ranges) => ends_on(ranges, axis).1,
        }
    }
}

// The ranges of these bounds, where each is a range of its axis.
#[inline]
fn ranges_between<A: Axis>(bounds: [(u128, u128); 5]) -> Option<Ranges<A>>
    ensures { result ≡ ranges_on A.LAST bounds }
{
    let [local, remote, protocol, local_field, remote_field] = bounds;
    let local = Interval::new(local.0, local.1)?;
    let remote = Interval::new(remote.0, remote.1)?;
    let protocol = Interval::new(protocol.0, protocol.1)?;
    let local_field = Interval::new(local_field.0, local_field.1)?;
    let remote_field = Interval::new(remote_field.0, remote_field.1)?;
    let fields = Pair {
        first: local_field,
        second: remote_field,
    };
    let protocol_and_fields = Pair {
        first: protocol,
        second: fields,
    };
    Some(Pair {
        first: local,
        second: Pair {
            first: remote,
            second: protocol_and_fields,
        },
    })
}

// The least and the greatest number on the axis.
#[inline]
fn ends_on<A: Axis>(ranges: &Ranges<A>, axis: AxisName) -> (u128, u128)
    ensures low { result.0 ≡ (axis_range axis ranges.now).low }
    ensures high { result.1 ≡ high_of (axis_range axis ranges.now) }
    ensures low_on_axis { result.0 ≤ axis_last A.LAST axis }
    ensures high_on_axis { result.1 ≤ axis_last A.LAST axis }
{
    let after_local = &ranges.second;
    let after_remote = &after_local.second;
    let fields = &after_remote.second;
    match axis {
        AxisName::Local => (ranges.first.low_value(), ranges.first.high_value()),
        AxisName::Remote => (
            after_local.first.low_value(),
            after_local.first.high_value(),
        ),
        AxisName::Protocol => (
            after_remote.first.low_value(),
            after_remote.first.high_value(),
        ),
        AxisName::LocalField => (fields.first.low_value(), fields.first.high_value()),
        AxisName::RemoteField => (fields.second.low_value(), fields.second.high_value()),
    }
}
