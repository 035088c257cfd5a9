ghost use Rattle.std.specs.Prelude.{◌≡◌, ◌≤◌, length, None, IfOk, IfErr, OnOk};
ghost use Rattle.spd_cut.specs.Entries.{entries};
ghost use Rattle.spd_cut.specs.Fault.{IsCutFault};
ghost use Rattle.spd_cut.specs.StandsFor.{AreLinked, StandsFor};
ghost use Rattle.spd_cut.specs.Steps.{first_over, steps};

use crate::cutter::Cutter;
use crate::{CutFault, EntryList, laws};
use sel_box::Direction;
use spd_line::Lines;
use std::alloc::Global;

/// The entries of a policy in a direction, no two of which have a point in common, and which answer
/// as the ordered lines do (RFC 4301 Appendix B). They come in the order of the lines, those of
/// `final` last; within a line in the order of its boxes, and within a box in the order in which it
/// was cut.
///
/// The limit is the most entries and pieces that there may be at once; pieces in which no packet
/// can lie count until their box is finished. `Limit` comes exactly where a count passes the limit,
/// with the line of the first such count.
///
/// Each box is cut by all boxes before it. Those that can't change what is left of it are passed
/// over: those of the other family, those that don't meet it, most of them in blocks
/// (`sel_blocks`), and all where nothing is left. An earlier box passes over the pieces that it
/// doesn't meet, likewise. It takes memory for the entries, a region for each box, and the most
/// pieces that a box has at once.
pub fn decorrelate<L: Lines>(
    alloc: Global,
    lines: &L,
    direction: Direction,
    limit: u32,
) -> Result<EntryList, CutFault>
    requires { length (L.lines lines.now) ≤ 4096 }
    ensures entries { IfOk result (λ list. list ≡ entries direction (L.lines lines.now)) }
    ensures stands { IfOk result (λ list. StandsFor list direction (L.lines lines.now)) }
    ensures within { OnOk result (first_over limit (steps direction (L.lines lines.now)) ≡ None) }
    ensures limit { IfErr result
        (IsCutFault (first_over limit (steps direction (L.lines lines.now)))) }
    ensures few { IfOk result (λ list. length list ≤ limit) }
    ensures links { IfOk result (AreLinked (length (L.lines lines.now))) }
{
    laws::entries_stand_for();
    let mut cutter = Cutter::new(alloc);
    let count = lines.count();
    for place in 1..count + 1 {
        let boxes = spd_line::boxes(alloc, lines.line(place), direction)?;
        cutter.add_line(boxes.as_slice(), place, limit)?;
    }
    cutter.add_line(&spd_line::final_boxes(), count + 1, limit)?;
    Ok(cutter.into_entries())
}
