ghost use Rattle.std.specs.Prelude.{◌≡◌, ◌+◌, ◌<◌, ◌≤◌, ◌∷◌, [], false, length, nat_lt, true};
ghost use Rattle.std.specs.Prelude.{All, IfErr, OnErr, OnOk};
ghost use Rattle.sel_region.specs.Cutting.{cut_all, cut_each};
ghost use Rattle.spd_cut.specs.Steps.{counts_of, passes};
ghost use Rattle.spd_cut.specs.inner.Cut.{IsLineFault};

use crate::CutFault;
use sel_blocks::{Block, Blocks};
use sel_region::Hull;

// Takes each of the earlier regions out of the pieces of a region, in order, and counts before the
// first and after each. Only those are looked at that can meet the region, and none where nothing
// is left of it: no other changes a piece, and so a count.
pub fn cut_out<R: Hull>(
    earlier: &Blocks<R>,
    region: &R,
    pieces: &mut Blocks<R>,
    spare: &mut Vec<R>,
    room: Room,
) -> Result<(), CutFault>
    requires room { room.done ≤ room.limit }
    requires whole { pieces.old ≡ region.now ∷ [] }
    ensures cut { OnOk result
        (pieces.new ≡ cut_all R.minus (region.now ∷ []) earlier.now) }
    ensures within { OnOk result (passes room.limit
        (counts_of R.minus room.done (region.now ∷ []) earlier.now) ≡ false) }
    ensures room { OnOk result (room.done + length pieces.new ≤ room.limit) }
    ensures limit { IfErr result (IsLineFault (passes room.limit
        (counts_of R.minus room.done (region.now ∷ []) earlier.now)) room.line) }
{
    room.check(pieces)?;
    for block in earlier.blocks() {
        if pieces.is_empty() {
            return Ok(());
        }
        cut_by(block, region, pieces, spare, room)?;
    }
    Ok(())
}

// The same for a block of the earlier regions, where the pieces lie within the region.
fn cut_by<R: Hull>(
    block: &Block<R>,
    region: &R,
    pieces: &mut Blocks<R>,
    spare: &mut Vec<R>,
    room: Room,
) -> Result<(), CutFault>
    requires inside { All (λ piece. R.within piece region.now ≡ true) pieces.old }
    requires room { room.done + length pieces.old ≤ room.limit }
    ensures cut { OnOk result (pieces.new ≡ cut_all R.minus pieces.old block.now) }
    ensures within { OnOk result (passes room.limit
        (counts_of R.minus room.done pieces.old block.now) ≡ false) }
    ensures room { OnOk result (room.done + length pieces.new ≤ room.limit) }
    ensures limit { IfErr result (IsLineFault (passes room.limit
        (counts_of R.minus room.done pieces.old block.now)) room.line) }
{
    if !block.may_meet(region) {
        return Ok(());
    }
    for earlier in block.as_slice() {
        take_out(earlier, region, pieces, spare, room)?;
    }
    Ok(())
}

// Takes one of the earlier regions out of all pieces, which lie within the region, and counts after
// it.
fn take_out<R: Hull>(
    earlier: &R,
    region: &R,
    pieces: &mut Blocks<R>,
    spare: &mut Vec<R>,
    room: Room,
) -> Result<(), CutFault>
    requires inside { All (λ piece. R.within piece region.now ≡ true) pieces.old }
    requires room { room.done + length pieces.old ≤ room.limit }
    ensures cut { OnOk result (pieces.new ≡ cut_each R.minus pieces.old earlier.now) }
    ensures room { OnOk result (room.done + length pieces.new ≤ room.limit) }
    ensures limit { IfErr result (IsLineFault (nat_lt room.limit
        (room.done + length (cut_each R.minus pieces.old earlier.now))) room.line) }
{
    if !earlier.meets(region) {
        return Ok(());
    }
    pieces.cut(earlier, spare)?;
    room.check(pieces)
}

// How many entries there are, the most that there may be with the pieces, and the line that is cut.
#[derive(Clone, Copy)]
pub struct Room {
    pub done: u32,
    pub limit: u32,
    pub line: u32,
}

impl Room {
    // Refuses a count that passes the limit.
    fn check<R: Hull>(self, pieces: &Blocks<R>) -> Result<(), CutFault>
        requires { self.done ≤ self.limit }
        ensures within { OnOk result (self.done + length pieces.now ≤ self.limit) }
        ensures limit { IfErr result (λ fault. fault ≡ CutFault.Limit self.line) }
        ensures passed { OnErr result (self.limit < self.done + length pieces.now) }
    {
        let most = self.limit - self.done;
        if pieces.are_more_than(most as usize) {
            Err(CutFault::Limit { line: self.line })
        } else {
            Ok(())
        }
    }
}
