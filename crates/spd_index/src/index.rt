ghost use Rattle.std.specs.Prelude.{◌≡◌, ◌+◌, ◌≤◌, IfOk, List, length};
ghost use Rattle.spd_line.specs.declared.line.LineParts.{LineParts};
ghost use Rattle.spd_line.specs.First.{verdict_of};
ghost use Rattle.spd_line.specs.Policy.{most_lines};
ghost use Rattle.spd_index.specs.IsIndexOf.{IsIndexOf};

use crate::NoMemory;
use crate::sides::{Sides, judge_by, sides_of};
use sel_box::{Direction, Family, Point};
use spd_line::{Lines, Verdict, judge};
use std::alloc::Global;

// So many lines are tried one by one in the time in which two parts are found.
const FEW: u32 = 8;

/// Finds the first line of a point, in either direction, without a look at each line.
///
/// The axis of local addresses and that of remote ones are parted, in each family, at the ends of
/// the lines' ranges, and each part has a row of bits, one for each line that may have an address
/// there. A line whose bit both rows of a point have may select it, and no other can.
///
/// An index is of the lines that it was made from, and asks for them at each call. Where they
/// change, it has to be made anew.
#[derive(Debug, Drop)]
pub struct Index {
    families: Option<Families>,
}

// The rows of both families.
#[derive(Debug, Drop)]
pub struct Families {
    four: Sides,
    six: Sides,
}

impl Index {
    /// The index without rows, which is of any lines and looks at each. Takes no memory.
    pub fn without_rows() -> Self
        ensures { (lines : List LineParts) → IsIndexOf result lines }
    {
        Index { families: None }
    }

    /// The index of some lines; of few lines it has no rows.
    ///
    /// Sorts the ends of all ranges, and puts each range into at most some 1,200 rows. The rows
    /// take at most some 8 MiB for each of the four axes, by the product of the ends and the lines.
    pub fn new<L: Lines>(alloc: Global, lines: &L) -> Result<Self, NoMemory>
        requires { length (L.lines lines.now) ≤ most_lines }
        ensures { IfOk result (λ index. IsIndexOf index (L.lines lines.now)) }
    {
        if lines.count() <= FEW {
            return Ok(Index::without_rows());
        }
        let four = sides_of(alloc, lines, Family::Four)?;
        let six = sides_of(alloc, lines, Family::Six)?;
        Ok(Index {
            families: Some(Families { four, six }),
        })
    }

    /// The verdict on a point by the lines that the index is of, as `spd_line::judge` gives it: the
    /// first line that selects the point, in order, and that line's judgement; where none does,
    /// `final` discards it (RFC 4301 sections 4.4.1 and 5).
    ///
    /// Takes no memory. Finds two parts by halving, looks at a word for each 64 lines up to the
    /// first, and tries the lines that stand in both parts, in order.
    pub fn judge<L: Lines>(&self, lines: &L, direction: Direction, point: &Point) -> Verdict
        requires few { length (L.lines lines.now) ≤ most_lines }
        requires index { IsIndexOf self.now (L.lines lines.now) }
        ensures verdict { result ≡ verdict_of direction point.now (L.lines lines.now) }
        ensures first { 1 ≤ result.line }
        ensures last { result.line ≤ length (L.lines lines.now) + 1 }
    {
        match &self.families {
            None => judge(lines, direction, point),
            Some(families) => {
                let sides = match point.family() {
                    Family::Four => &families.four,
                    Family::Six => &families.six,
                };
                judge_by(sides, lines, direction, point)
            }
        }
    }
}
