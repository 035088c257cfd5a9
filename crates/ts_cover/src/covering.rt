ghost use Rattle.std.specs.Prelude.{◌≡◌, ◌↔◌, ◌∷◌, [], true, IfOk, IsTrue};
ghost use Rattle.sel_box.specs.Point.{PointFields};
ghost use Rattle.ts_payload.specs.Selector.{AreSelectors};
ghost use Rattle.ts_cover.specs.Covered.{covered};
ghost use Rattle.ts_cover.specs.Pairs.{boxes_have, pairs};
ghost use Rattle.ts_cover.specs.RealParts as parts;
ghost use Rattle.ts_cover.specs.Writing as writing;

use crate::pairing::pairs;
use crate::sides::can_write;
use crate::{NoMemory, Ts};
use sel_box::{AnyBox, OPAQUE_FIELD, Region, RegionList, has_real};
use sel_tree::BoxTree;
use std::alloc::Global;
use std::marker::Model;

/// The points that a proposal covers, as boxes: one for each pair of a selector of the initiator
/// and one of the responder, where it isn't empty. A contract sees the list of the boxes.
///
/// They stand in a tree, so that those that meet a region are found without a look at each.
#[derive(Drop)]
pub struct Cover {
    boxes: BoxTree,
}

impl Model for Cover {
    ghost use Rattle.std.specs.Prelude.{List};
    ghost use Rattle.sel_box.specs.declared.any_box.AnyBox.{AnyBox};

    ghost Value = { List AnyBox };

    ghost view = { λ c. c.boxes };
}

impl Cover {
    /// The boxes of all pairs, by the selectors of the initiator and then those of the responder.
    /// Of selectors that a payload can have they have exactly the points that the proposal covers.
    ///
    /// Takes time by n log n of the number of pairs, and memory for a tree of their boxes
    /// (`sel_tree::BoxTree`).
    pub fn new(alloc: Global, tsi: &[Ts], tsr: &[Ts]) -> Result<Cover, NoMemory>
        ensures boxes { IfOk result (λ cover. cover ≡ pairs tsi.now tsr.now) }
        ensures points { AreSelectors tsi.now → AreSelectors tsr.now → (x : PointFields) →
            boxes_have (pairs tsi.now tsr.now) x ≡ covered tsi.now tsr.now x }
    {
        let list = pairs(alloc, tsi, tsr)?;
        let boxes = BoxTree::from_list(alloc, list)?;
        Ok(Cover { boxes })
    }

    /// One box alone.
    pub fn of_one(alloc: Global, region: AnyBox) -> Result<Cover, NoMemory>
        ensures { IfOk result (λ cover. cover ≡ region ∷ []) }
    {
        let list = RegionList::of_one(alloc, region)?;
        let boxes = BoxTree::from_list(alloc, list)?;
        Ok(Cover { boxes })
    }

    /// The boxes, in order.
    pub fn boxes(&self) -> &[AnyBox]
        ensures { result.now ≡ self.now }
    {
        self.boxes.as_slice()
    }

    /// Whether the region has a real point in some of the boxes. No memory.
    ///
    /// Looks at the boxes that meet the region alone, up to the first with which it has one.
    pub fn reaches(&self, region: &AnyBox) -> bool
        ensures test { result ≡ parts.reaches self.now region.now }
        ensures real { IsTrue result ↔ parts.Reaches self.now region.now }
    {
        reaches(&self.boxes, region)
    }

    /// Whether the region has a real point of a protocol from 1 to 255 in some of the boxes. No
    /// memory; the time of `reaches`.
    pub fn says(&self, region: &AnyBox) -> bool
        ensures test { result ≡ parts.says self.now region.now }
        ensures real { IsTrue result ↔ parts.Says self.now region.now }
    {
        says(&self.boxes, region)
    }

    /// The region, where both its sides can be written as selectors; else the part of it that has
    /// one protocol, the first from 1 to 255 with which it has a real point in some of the boxes.
    /// That part can be written. Where there is no such protocol, it is the region.
    ///
    /// No memory. Takes up to 255 times the time of `reaches`.
    pub fn written_part(&self, region: &AnyBox) -> AnyBox
        ensures value { result ≡ writing.written_part self.now region.now }
        ensures writable { parts.says self.now region.now ≡ true
            → writing.can_write (writing.written_part self.now region.now) ≡ true }
    {
        written_part(&self.boxes, region)
    }
}

// Whether the region has a real point in some of the boxes, of which those are looked at that it
// meets.
fn reaches(boxes: &BoxTree, region: &AnyBox) -> bool
    ensures { result ≡ parts.reaches boxes.now region.now }
{
    sel_tree::laws::the_first_box_that_meets_is_found();
    let mut from = 0;
    while let Some(index) = boxes.first_met(from, region) {
        if real_meet(region, &boxes.as_slice()[index]) {
            return true;
        }
        from = index + 1;
    }
    false
}

// Whether the region has a sayable real point in some of the boxes.
#[tactic(auto, unfolding(crate::specs::RealParts::says))]
fn says(boxes: &BoxTree, region: &AnyBox) -> bool
    ensures { result ≡ parts.says boxes.now region.now }
{
    match of_protocols((1, 255), region) {
        Some(part) => reaches(boxes, &part),
        None => false,
    }
}

// The region where it can be written, and else its first part of one protocol that reaches the
// boxes.
#[tactic(auto, unfolding(crate::specs::Writing::written_part))]
fn written_part(boxes: &BoxTree, region: &AnyBox) -> AnyBox
    ensures { result ≡ writing.written_part boxes.now region.now }
{
    if can_write(region) {
        return *region;
    }
    first_part(boxes, region).unwrap_or(*region)
}

// Whether the two have a real point in common.
fn real_meet(region: &AnyBox, other: &AnyBox) -> bool
    ensures { result ≡ parts.real_meet region.now other.now }
{
    match region.meet(other) {
        Some(meet) => has_real(&meet),
        None => false,
    }
}

// The points of the region whose protocol lies in a range.
fn of_protocols(protocols: (u128, u128), region: &AnyBox) -> Option<AnyBox>
    ensures { result ≡ parts.of_protocols protocols region.now }
{
    let addresses = (0, region.family().last_address());
    let fields = (0, u128::from(OPAQUE_FIELD));
    let bounds = [addresses, addresses, protocols, fields, fields];
    region.meet(&AnyBox::new(region.family(), bounds)?)
}

// The part of one protocol, the first with which the region has a real point in some of the boxes.
#[tactic(auto, unfolding(crate::specs::Writing::first_part))]
fn first_part(boxes: &BoxTree, region: &AnyBox) -> Option<AnyBox>
    ensures { result ≡ writing.first_part boxes.now region.now }
{
    (1..256_u128)
        .filter_map(|protocol| of_protocols((protocol, protocol), region))
        .find(|part| reaches(boxes, part))
}
