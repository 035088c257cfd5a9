ghost use Rattle.std.specs.Prelude.{◌≡◌};
ghost use Rattle.sel_box.specs.Boxes.{range_at};
ghost use Rattle.sel_tree.specs.FirstMet.{NoneMet};
ghost use Rattle.cert_make.specs.Rule.{axes, cut_value, first_met, node_between, split_along};
ghost use Rattle.cert_make.specs.inner.Sides.{node_by, placed_of};
ghost use Rattle.cert_make.specs.inner.Starts.{IsStart};

use crate::placed::PlacedBox;
use crate::starts::Start;
use cert_rows::Side;
use cert_text::Node;
use sel_box::{AnyBox, AxisName, Region, least_packet};

// The axes in the order in which a box is split: source, destination, protocol, and both fields.
const AXES: [AxisName; 5] = [
    AxisName::Local,
    AxisName::Remote,
    AxisName::Protocol,
    AxisName::LocalField,
    AxisName::RemoteField,
];

// The node over a box, by the boxes of both gateways. The searches begin at a start, which then is
// where those in a part of the box begin.
pub fn node_for(ours: &Side, theirs: &Side, region: &AnyBox, start: &mut Start) -> Node
    requires { IsStart ours.now theirs.now region.now start.old }
    ensures node { result ≡ node_by ours.now theirs.now region.now }
    ensures behind { IsStart ours.now theirs.now region.now start.new }
{
    if least_packet(region).is_none() {
        return Node::Void;
    }
    let first = first_met(ours, &mut start.ours, region);
    let second = first_met(theirs, &mut start.theirs, region);
    match (first, second) {
        (Some(ours), Some(theirs)) => node_between(region, &ours, &theirs),
        _ => Node::Void,
    }
}

// The first box that has a point of the region, where none before an index has; the index is then
// that box's own. Found without a look at each.
fn first_met(side: &Side, from: &mut usize, region: &AnyBox) -> Option<PlacedBox>
    requires { NoneMet 0 from.old region.now side.now.regions }
    ensures met { result ≡ first_met region.now (placed_of side.now) }
    ensures none_before { NoneMet 0 from.new region.now side.now.regions }
{
    sel_tree::laws::the_first_box_that_meets_is_found();
    match side.regions.first_met(*from, region) {
        Some(index) => {
            *from = index;
            Some(PlacedBox {
                region: side.regions.as_slice()[index],
                line: side.marks[index].line,
            })
        }
        None => None,
    }
}

// The node over a box that a box of A and one of B are the first to meet.
fn node_between(region: &AnyBox, ours: &PlacedBox, theirs: &PlacedBox) -> Node
    ensures { result ≡ node_between region.now ours.now theirs.now }
{
    if !region.within(&ours.region) {
        split_outside(region, &ours.region)
    } else if !region.within(&theirs.region) {
        split_outside(region, &theirs.region)
    } else {
        Node::Leaf {
            a: ours.line,
            b: theirs.line,
        }
    }
}

// The split of a box on the first axis on which it doesn't lie in another.
fn split_outside(region: &AnyBox, other: &AnyBox) -> Node
    ensures { result ≡ split_along region.now other.now axes }
{
    for axis in AXES {
        if let Some(value) = cut_value(region, other, axis) {
            return Node::Split { axis, value };
        }
    }
    Node::Void
}

// The number behind which a box is cut on an axis on which it doesn't lie in another.
fn cut_value(region: &AnyBox, other: &AnyBox, axis: AxisName) -> Option<u128>
    ensures { result ≡ cut_value (range_at axis region.now) (range_at axis other.now) }
{
    if region.low_of(axis) < other.low_of(axis) {
        Some(other.low_of(axis) - 1)
    } else if other.high_of(axis) < region.high_of(axis) {
        Some(other.high_of(axis))
    } else {
        None
    }
}
