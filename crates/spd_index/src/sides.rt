ghost use Rattle.std.specs.Prelude.{◌≡◌, ◌+◌, ◌<◌, ◌≤◌, IfOk, bit_and, length};
ghost use Rattle.spd_line.specs.First.{verdict_of};
ghost use Rattle.spd_line.specs.Policy.{most_lines};
ghost use Rattle.spd_line.specs.declared.judgement.Judgement.{Judgement};
ghost use Rattle.spd_index.specs.inner.Held.{AreSidesOf};
ghost use Rattle.spd_index.specs.inner.Rows.{IsPart, word_of};

use crate::NoMemory;
use crate::bits::word_count;
use crate::ends::Side;
use crate::rows::Rows;
use crate::tries::first_of_word;
use sel_box::{Direction, Family, Point};
use spd_line::{Judgement, Lines, Verdict};
use std::alloc::Global;

// The rows of one family.
#[derive(Debug, Drop)]
pub struct Sides {
    local: Rows,
    remote: Rows,
}

// The parts in which a point lies.
#[derive(Clone, Copy)]
struct Parts {
    local: usize,
    remote: usize,
}

// The rows of the lines in a family.
pub fn sides_of<L: Lines>(alloc: Global, lines: &L, family: Family) -> Result<Sides, NoMemory>
    requires { length (L.lines lines.now) ≤ most_lines }
    ensures { IfOk result (λ sides. AreSidesOf family sides (L.lines lines.now)) }
{
    Ok(Sides {
        local: Rows::new(alloc, lines, family, Side::Local)?,
        remote: Rows::new(alloc, lines, family, Side::Remote)?,
    })
}

// The verdict on a point of the family, by the lines that stand in both its parts.
pub fn judge_by<L: Lines>(sides: &Sides, lines: &L, direction: Direction, point: &Point) -> Verdict
    requires few { length (L.lines lines.now) ≤ most_lines }
    requires sides { AreSidesOf point.now.family sides.now (L.lines lines.now) }
    ensures { result ≡ verdict_of direction point.now (L.lines lines.now) }
{
    let parts = parts_of(sides, point);
    for word in 0..word_count(lines.count()) {
        let bits = word_of_both(sides, parts, word);
        if let Some(verdict) = first_of_word(lines, direction, point, word as u32, bits) {
            return verdict;
        }
    }
    verdict_of_final(lines.count())
}

// Where the point lies on both axes.
#[inline]
fn parts_of(sides: &Sides, point: &Point) -> Parts
    ensures local { IsPart sides.now.local.starts.items point.now.local result.local }
    ensures remote { IsPart sides.now.remote.starts.items point.now.remote result.remote }
{
    Parts {
        local: sides.local.part_of(point.local()),
        remote: sides.remote.part_of(point.remote()),
    }
}

// A word of the lines that stand in both parts.
#[inline]
fn word_of_both(sides: &Sides, parts: Parts, word: usize) -> u64
    requires local { parts.local ≤ length sides.now.local.starts.items }
    requires remote { parts.remote ≤ length sides.now.remote.starts.items }
    requires in_local { word < sides.now.local.width }
    requires in_remote { word < sides.now.remote.width }
    ensures { result ≡ bit_and (word_of sides.now.local parts.local word)
        (word_of sides.now.remote parts.remote word) }
{
    sides.local.word(parts.local, word) & sides.remote.word(parts.remote, word)
}

// What `final` says, behind so many lines.
fn verdict_of_final(lines: u32) -> Verdict
    requires { lines ≤ most_lines }
    ensures { result ≡ record { line = lines + 1; judgement = Judgement.Discard } }
{
    Verdict {
        line: lines + 1,
        judgement: Judgement::Discard,
    }
}
