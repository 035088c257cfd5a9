ghost use Rattle.std.specs.Prelude.{◌≡◌, IfOk, length, true};
ghost use Rattle.std.specs.Bool.{OnTrue};
ghost use Rattle.sel_tree.specs.inner.Trees.{AreAllPlaced, Covers, IsIndex, IsNodeAt, IsTree};
ghost use Rattle.sel_tree.specs.inner.Trees.{has_entry, has_entry_of};

use crate::NoMemory;
use crate::build::places_in;
use crate::trees::{Node, Trees};
use sel_box::{AnyBox, Box4, Box6, OfFamily, Region};
use std::alloc::Global;

// The trees, where they are an index of the list, else those without a box.
pub fn checked(alloc: Global, regions: &[AnyBox], trees: Trees) -> Result<Trees, NoMemory>
    ensures { IfOk result (λ t. IsIndex regions.now t.four.items t.six.items t.placed) }
{
    let places = places_in(alloc, regions.len(), &trees)?;
    if is_index(regions, &trees, &places) {
        Ok(trees)
    } else {
        Ok(Trees::none(alloc))
    }
}

// Whether the trees are an index of the list, where these are the places of the boxes.
fn is_index(regions: &[AnyBox], trees: &Trees, places: &[u32]) -> bool
    ensures { OnTrue result
        (IsIndex regions.now trees.now.four.items trees.now.six.items trees.now.placed) }
{
    trees.placed == regions.len()
        && is_tree(&trees.four, regions)
        && is_tree(&trees.six, regions)
        && are_all_placed(regions, &trees.four, &trees.six, places)
}

// Whether each node has under it the boxes of all nodes below. Takes time by the nodes that are
// below each.
fn is_tree<R: OfFamily>(nodes: &[Node<R>], regions: &[AnyBox]) -> bool
    ensures { OnTrue result (IsTree R.region regions.now nodes.now) }
{
    for (place, node) in nodes.iter().enumerate() {
        if !is_node_at(nodes, place, node, regions) {
            return false;
        }
    }
    true
}

// Whether a node, which stands at a place, does.
fn is_node_at<R: OfFamily>(
    nodes: &[Node<R>],
    place: usize,
    node: &Node<R>,
    regions: &[AnyBox],
) -> bool
    ensures { OnTrue result (IsNodeAt R.region regions.now nodes.now place node.now) }
{
    let skip = node.skip as usize;
    if skip <= place {
        return false;
    }
    for k in place..skip.min(nodes.len()) {
        if !covers(node, nodes[k].entry, regions) {
            return false;
        }
    }
    true
}

// Whether the node has under it the box at the index.
#[inline]
fn covers<R: OfFamily>(node: &Node<R>, index: u32, regions: &[AnyBox]) -> bool
    ensures { OnTrue result (Covers R.region regions.now node.now index) }
{
    if index as usize >= regions.len() || index < node.least || node.greatest < index {
        return false;
    }
    regions[index as usize].within(&node.hull.region())
}

// Whether each box has a node in the tree of its family, at the place that is said of it.
fn are_all_placed(
    regions: &[AnyBox],
    four: &[Node<Box4>],
    six: &[Node<Box6>],
    places: &[u32],
) -> bool
    ensures { OnTrue result (AreAllPlaced regions.now four.now six.now (length regions.now)) }
{
    for (index, region) in regions.iter().enumerate() {
        if !is_placed(four, six, region, index, places) {
            return false;
        }
    }
    true
}

// Whether a box, which stands at an index, has one.
#[inline]
fn is_placed(
    four: &[Node<Box4>],
    six: &[Node<Box6>],
    region: &AnyBox,
    index: usize,
    places: &[u32],
) -> bool
    ensures { OnTrue result (has_entry_of four.now six.now region.now index ≡ true) }
{
    let Some(place) = places.get(index) else {
        return false;
    };
    match region {
        AnyBox::Four(_) => has_at(four, *place, index),
        AnyBox::Six(_) => has_at(six, *place, index),
    }
}

// Whether the node at the place has the index.
#[inline]
fn has_at<R: OfFamily>(nodes: &[Node<R>], place: u32, index: usize) -> bool
    ensures { OnTrue result (has_entry nodes.now index ≡ true) }
{
    let place = place as usize;
    place < nodes.len() && nodes[place].entry as usize == index
}
