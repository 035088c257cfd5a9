ghost use Rattle.std.specs.Prelude.{◌≡◌};
ghost use Rattle.cert_text.specs.Split.{split_box, split_range, split_ranges};

use sel_box::{AnyBox, AxisName, Ranges};
use sel_region::{Axis, Interval};

/// A box in two on an axis: the part up to a value, and the rest. `None` exactly where either would
/// be empty: where the value is below the box's least number on the axis, or isn't below its
/// greatest. Takes no memory.
pub fn split(region: &AnyBox, axis: AxisName, value: u128) -> Option<(AnyBox, AnyBox)>
    ensures { result ≡ split_box axis value region.now }
{
    match region {
        AnyBox::Four(ranges) => {
            let (low, high) = split_ranges(ranges, axis, value)?;
            Some((AnyBox::Four(low), AnyBox::Four(high)))
        }
        AnyBox::Six(ranges) => {
            let (low, high) = split_ranges(ranges, axis, value)?;
            Some((AnyBox::Six(low), AnyBox::Six(high)))
        }
    }
}

// Five ranges in two on an axis.
fn split_ranges<A: Axis>(
    ranges: &Ranges<A>,
    axis: AxisName,
    value: u128,
) -> Option<(Ranges<A>, Ranges<A>)>
    ensures { result ≡ split_ranges axis value ranges.now }
{
    let (mut low, mut high) = (*ranges, *ranges);
    match axis {
        AxisName::Local => {
            let (below, above) = split_interval(&ranges.first, value)?;
            low.first = below;
            high.first = above;
        }
        AxisName::Remote => {
            let (below, above) = split_interval(&ranges.second.first, value)?;
            low.second.first = below;
            high.second.first = above;
        }
        AxisName::Protocol => {
            let (below, above) = split_interval(&ranges.second.second.first, value)?;
            low.second.second.first = below;
            high.second.second.first = above;
        }
        AxisName::LocalField => {
            let (below, above) = split_interval(&ranges.second.second.second.first, value)?;
            low.second.second.second.first = below;
            high.second.second.second.first = above;
        }
        AxisName::RemoteField => {
            let (below, above) = split_interval(&ranges.second.second.second.second, value)?;
            low.second.second.second.second = below;
            high.second.second.second.second = above;
        }
    }
    Some((low, high))
}

// A range in two.
fn split_interval<A: Axis>(
    interval: &Interval<A>,
    value: u128,
) -> Option<(Interval<A>, Interval<A>)>
    ensures { result ≡ split_range value interval.now }
{
    let (low, high) = (interval.low_value(), interval.high_value());
    if low <= value && value < high {
        Some((Interval::new(low, value)?, Interval::new(value + 1, high)?))
    } else {
        None
    }
}
