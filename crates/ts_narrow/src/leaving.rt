ghost use Rattle.std.specs.Prelude.{◌≡◌, ◌++◌, ◌+◌, ◌<◌, ◌||◌, IfOk, OnOk};
ghost use Rattle.sel_box.specs.BoxRegion.{box_minus};
ghost use Rattle.ts_cover.specs.RealParts.{leaves};
ghost use Rattle.ts_narrow.specs.Meets as listed;
ghost use Rattle.ts_narrow.specs.inner.Rests.{is_left, rests_at, some_left, work, work_of};

use crate::NoMemory;
use crate::inbound::Inbound;
use crate::line_meets::regions_of;
use sel_box::{AnyBox, Region, has_real};
use sel_tree::BoxTree;
use spd_cut::Entry;
use std::alloc::Global;
use ts_cover::Cover;

/// A piece of a box, which is still to be cut by the regions of a list from an index on.
#[derive(Clone, Copy)]
pub struct Rest {
    pub piece: AnyBox,
    pub from: usize,
}

// Whether a real point of some boxes is in no meet of the line.
pub fn leaves(
    alloc: Global,
    outbound: &[Entry],
    inbound: &Inbound,
    cover: &Cover,
    link: u32,
) -> Result<bool, NoMemory>
    ensures { IfOk result (λ left. left ≡ leaves cover.now
        (listed.regions_of link (listed.meets outbound.now inbound.now))) }
{
    let regions = regions_of(alloc, outbound, inbound, link)?;
    let others = BoxTree::from_list(alloc, regions)?;
    leaves_some(alloc, cover.boxes(), &others)
}

// Whether a real point of some boxes is in none of the others.
//
// The last piece is cut next, by the first region that is left and meets it. So each piece is cut
// by such regions alone, and one that none of them meets is the answer at once.
fn leaves_some(alloc: Global, boxes: &[AnyBox], others: &BoxTree) -> Result<bool, NoMemory>
    ensures { IfOk result (λ left. left ≡ leaves boxes.now others.now) }
{
    let mut rests = Vec::new(alloc);
    put_rests(&mut rests, boxes, 0)?;
    while let Some(rest) = rests.pop() {
        let left = is_left(&rest, others, &mut rests)?;
        if left {
            return Ok(true);
        }
    }
    Ok(false)
}

// Whether no region meets a piece and it has a real point. Where one does, what the first of them
// leaves of the piece is put at the end.
fn is_left(rest: &Rest, others: &BoxTree, rests: &mut Vec<Rest>) -> Result<bool, NoMemory>
    ensures left { IfOk result (λ left. (left || some_left others.now rests.new.items)
        ≡ (is_left others.now rest.now || some_left others.now rests.old.items)) }
    ensures less { OnOk result (work others.now rests.new.items
        < work_of others.now rest.now + work others.now rests.old.items) }
{
    sel_tree::laws::the_first_box_that_meets_is_found();
    match others.first_met(rest.from, &rest.piece) {
        Some(index) => {
            put_cut(rests, &rest.piece, &others.as_slice()[index], index + 1)?;
            Ok(false)
        }
        None => Ok(has_real(&rest.piece)),
    }
}

// Puts what is left of a piece without a region at the end.
fn put_cut(
    rests: &mut Vec<Rest>,
    piece: &AnyBox,
    region: &AnyBox,
    from: usize,
) -> Result<(), NoMemory>
    ensures { OnOk result (rests.new.items
        ≡ rests.old.items ++ rests_at from (box_minus piece.now region.now)) }
{
    let mut pieces = Vec::new(*rests.allocator());
    piece.minus(region, &mut pieces)?;
    put_rests(rests, &pieces, from)
}

// Puts pieces at the end.
fn put_rests(rests: &mut Vec<Rest>, pieces: &[AnyBox], from: usize) -> Result<(), NoMemory>
    ensures { OnOk result (rests.new.items ≡ rests.old.items ++ rests_at from pieces.now) }
{
    for piece in pieces {
        rests.push(Rest {
            piece: *piece,
            from,
        })?;
    }
    Ok(())
}
