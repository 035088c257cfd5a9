ghost use Rattle.std.specs.Prelude.{◌≡◌, ◌<◌, length};

use crate::NoMemory;
use crate::trees::{Node, Trees};
use sel_box::{AnyBox, AxisName, OfFamily};
use std::alloc::Global;

// How many parts of a mean width are counted.
const PARTS: u128 = 1024;

// Trees for a list of boxes. What they are good for is found out by a check, so that nothing is
// promised of them here.
//
// Each node has the middle one of the boxes of its part on the widest axis, and below it first
// those before and then those behind. So a tree is as deep as the logarithm of the count.
pub fn trees_for(alloc: Global, regions: &[AnyBox]) -> Result<Trees, NoMemory> {
    let mut trees = Trees::none(alloc);
    for (index, region) in regions.iter().enumerate() {
        let entry = number(index);
        match region {
            AnyBox::Four(ranges) => trees.four.push(Node::alone(*ranges, entry))?,
            AnyBox::Six(ranges) => trees.six.push(Node::alone(*ranges, entry))?,
        }
    }
    let mut open = Vec::new(alloc);
    arrange(&mut trees.four, &mut open)?;
    arrange(&mut trees.six, &mut open)?;
    join(&mut trees.four);
    join(&mut trees.six);
    trees.placed = regions.len();
    Ok(trees)
}

// A place or an index in a list. One that is too large becomes another, and the check fails.
fn number(index: usize) -> u32 {
    u32::try_from(index).unwrap_or(u32::MAX)
}

// Puts the nodes into the order of their tree. The parts that aren't arranged yet are in `open`,
// each by its first place and its end.
fn arrange<R: OfFamily>(
    nodes: &mut [Node<R>],
    open: &mut Vec<(usize, usize)>,
) -> Result<(), NoMemory> {
    open.clear();
    open.push((0, nodes.len()))?;
    for _ in 0..nodes.len() {
        let Some((first, end)) = open.pop() else {
            return Ok(());
        };
        arrange_part(nodes, first, end, open)?;
    }
    Ok(())
}

// Puts the middle node of a part first, before those that go below it, and opens both halves.
fn arrange_part<R: OfFamily>(
    nodes: &mut [Node<R>],
    first: usize,
    end: usize,
    open: &mut Vec<(usize, usize)>,
) -> Result<(), NoMemory> {
    if first >= end || end > nodes.len() {
        return Ok(());
    }
    middle_first(&mut nodes[first..end]);
    nodes[first].skip = number(end);
    let left = first + 1;
    let right = left + (end - first) / 2;
    if right < end {
        open.push((right, end))?;
    }
    if left < right {
        open.push((left, right))?;
    }
    Ok(())
}

// Puts the middle node first, and behind it those that aren't greater and then those that aren't
// less.
fn middle_first<R: OfFamily>(nodes: &mut [Node<R>])
    requires { 0 < length nodes.old }
{
    let middle = nodes.len() / 2;
    let axis = widest_axis(nodes);
    let _parts = nodes.select_nth_unstable_by_key(middle, |node| low_of(node, axis));
    nodes.swap(0, middle);
}

// The axis on which the low values lie apart by most, for the mean width of the boxes.
fn widest_axis<R: OfFamily>(nodes: &[Node<R>]) -> AxisName {
    let mut widest = AxisName::Local;
    let mut most = 0;
    for axis in [
        AxisName::Local,
        AxisName::Remote,
        AxisName::Protocol,
        AxisName::LocalField,
        AxisName::RemoteField,
    ] {
        let spread = spread_on(nodes, axis);
        if spread > most {
            most = spread;
            widest = axis;
        }
    }
    widest
}

// How far the low values on an axis lie apart, in parts of the mean width of the boxes.
fn spread_on<R: OfFamily>(nodes: &[Node<R>], axis: AxisName) -> u128 {
    let mut least = u128::MAX;
    let mut greatest = 0u128;
    let mut widths = 0u128;
    for node in nodes {
        let region = node.hull.region();
        let low = region.low_of(axis);
        least = least.min(low);
        greatest = greatest.max(low);
        widths = widths.saturating_add(region.high_of(axis).saturating_sub(low));
    }
    let spread = greatest.saturating_sub(least);
    let mean = widths / (nodes.len() as u128 + 1);
    spread.saturating_mul(PARTS) / mean.saturating_add(1)
}

// The low value of the node's box on an axis.
#[inline]
fn low_of<R: OfFamily>(node: &Node<R>, axis: AxisName) -> u128 {
    node.hull.region().low_of(axis)
}

// Gives each node the boxes of those below it, the last node first.
fn join<R: OfFamily>(nodes: &mut [Node<R>]) {
    for place in (0..nodes.len()).rev() {
        let mut node = nodes[place];
        if let Some(left) = node_below(nodes, place + 1, &node) {
            node.take_below(&left);
            if let Some(right) = node_below(nodes, left.skip as usize, &node) {
                node.take_below(&right);
            }
        }
        nodes[place] = node;
    }
}

// The node at a place, where that is below another.
fn node_below<R: OfFamily>(nodes: &[Node<R>], place: usize, above: &Node<R>) -> Option<Node<R>> {
    if place < above.skip as usize && place < nodes.len() {
        Some(nodes[place])
    } else {
        None
    }
}

// For each box the place of its node in the tree of its family.
pub fn places_in(alloc: Global, count: usize, trees: &Trees) -> Result<Vec<u32>, NoMemory> {
    let mut places = vec![in alloc; 0u32; count]?;
    put_places(&trees.four, &mut places);
    put_places(&trees.six, &mut places);
    Ok(places)
}

// Puts the places of a tree's nodes in.
fn put_places<R: OfFamily>(nodes: &[Node<R>], places: &mut [u32]) {
    for (place, node) in nodes.iter().enumerate() {
        let entry = node.entry as usize;
        if entry < places.len() {
            places[entry] = number(place);
        }
    }
}
