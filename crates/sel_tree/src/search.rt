ghost use Rattle.std.specs.Prelude.{◌≡◌, ◌≤◌, ◌<◌, List, ℕ, length, slice_index_or, true};
ghost use Rattle.std.specs.Bool.{OnTrue};
ghost use Rattle.sel_box.specs.declared.any_box.AnyBox.{AnyBox};
ghost use Rattle.sel_tree.specs.FirstMet.{NoneMet, meets};
ghost use Rattle.sel_tree.specs.inner.Trees.{Covers, IsIndex, IsMetOrLen, IsNoLess, IsTree};
ghost use Rattle.sel_tree.specs.inner.Trees.{has_entry};

use crate::trees::{Node, Trees};
use sel_box::{AnyBox, OfFamily, Region};

// The least index, from one on, of a box that stands in the trees and meets the region; the length
// of the list where there is none.
pub fn first_placed(trees: &Trees, regions: &[AnyBox], from: usize, region: &AnyBox) -> usize
    requires { IsIndex regions.now trees.now.four.items trees.now.six.items trees.now.placed }
    ensures met { IsMetOrLen regions.now from region.now result }
    ensures least { (k : ℕ) → k < trees.now.placed
        → IsNoLess regions.now from region.now result k }
{
    match region {
        AnyBox::Four(_) => least_met(&trees.four, regions, from, region),
        AnyBox::Six(_) => least_met(&trees.six, regions, from, region),
    }
}

// The least index of a box that a tree has, from an index on, that meets a box; the length of the
// list where there is none.
fn least_met<R: OfFamily>(
    nodes: &[Node<R>],
    regions: &[AnyBox],
    from: usize,
    region: &AnyBox,
) -> usize
    requires { IsTree R.region regions.now nodes.now }
    ensures met { IsMetOrLen regions.now from region.now result }
    ensures least { (k : ℕ) → has_entry nodes.now k ≡ true
        → IsNoLess regions.now from region.now result k }
{
    let mut best = regions.len();
    let mut at = 0;
    while at < nodes.len() {
        let node = &nodes[at];
        if is_idle(node, from, best, region) {
            at = node.skip as usize;
        } else {
            best = better(node.entry as usize, regions, from, best, region);
            at += 1;
        }
    }
    best
}

// Whether no box that the node has under it is one that is looked for: from an index on, before
// the best one so far, and one that meets the region.
#[inline]
fn is_idle<R: OfFamily>(node: &Node<R>, from: usize, best: usize, region: &AnyBox) -> bool
    ensures { OnTrue result ((regions : List AnyBox) (k : ℕ)
        → Covers R.region regions node.now k → IsNoLess regions from region.now best k) }
{
    if (node.greatest as usize) < from || node.least as usize >= best {
        return true;
    }
    !node.hull.region().meets(region)
}

// The lesser of the best index so far and this one, where this one is one that is looked for.
#[inline]
fn better(entry: usize, regions: &[AnyBox], from: usize, best: usize, region: &AnyBox) -> usize
    requires listed { entry < length regions.now }
    requires met { IsMetOrLen regions.now from region.now best }
    ensures no_more { result ≤ best }
    ensures met { IsMetOrLen regions.now from region.now result }
    ensures least { IsNoLess regions.now from region.now result entry }
{
    if from <= entry && entry < best && regions[entry].meets(region) {
        entry
    } else {
        best
    }
}

// The first index from one on and before another of a box that meets a box; that other index where
// there is none.
pub fn first_met_between(regions: &[AnyBox], from: usize, end: usize, region: &AnyBox) -> usize
    requires { end ≤ length regions.now }
    ensures within { result ≤ end }
    ensures after { result < end → from ≤ result }
    ensures met { (d : AnyBox) → result < end
        → meets region.now (slice_index_or regions.now result d) ≡ true }
    ensures none_before { NoneMet from result region.now regions.now }
{
    for at in from..end {
        if regions[at].meets(region) {
            return at;
        }
    }
    end
}
