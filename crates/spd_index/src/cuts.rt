ghost use Rattle.std.specs.Prelude.{◌<◌, ◌≤◌, IfOk, length};
ghost use Rattle.std.specs.List.Sorted.{IsNonDecreasing};
ghost use Rattle.spd_line.specs.Policy.{most_lines};

use crate::NoMemory;
use crate::ends::{Side, ends_of, items_of};
use sel_box::Family;
use spd_line::{AddressItem, Lines};
use std::alloc::Global;

// The most places at which an axis is parted, where its rows have so many words: all rows take some
// 8 MiB at most, and a range goes into some 1,200 of them.
#[inline]
fn most_cuts(width: usize) -> usize
    ensures some { 0 < result }
    ensures few { result ≤ 65536 }
{
    if width <= 16 { 65_536 } else { 16_384 }
}

// Where an axis is parted, in rising order: at the ends of the lines' ranges, or at some of them
// where they are too many. Any cuts give the same verdicts: fewer make a look longer.
pub fn cuts<L: Lines>(
    alloc: Global,
    lines: &L,
    family: Family,
    side: Side,
    width: usize,
) -> Result<Vec<u128>, NoMemory>
    requires { length (L.lines lines.now) ≤ most_lines }
    ensures rising { IfOk result (λ cuts. IsNonDecreasing cuts.items) }
    ensures few { IfOk result (λ cuts. length cuts.items ≤ 65536) }
{
    let ends = sorted_ends(alloc, lines, family, side)?;
    let most = most_cuts(width);
    let mut cuts = thinned(alloc, &ends, most)?;
    cuts.truncate(most);
    cuts.sort_unstable();
    Ok(cuts)
}

// The ends of all ranges of the family, each once, in rising order.
fn sorted_ends<L: Lines>(
    alloc: Global,
    lines: &L,
    family: Family,
    side: Side,
) -> Result<Vec<u128>, NoMemory>
    requires { length (L.lines lines.now) ≤ most_lines }
{
    let mut ends = Vec::new(alloc);
    for place in 1..lines.count() + 1 {
        put_ends(&mut ends, family, items_of(side, lines.line(place).parts()))?;
    }
    ends.sort_unstable();
    ends.dedup();
    Ok(ends)
}

// Puts the first address of each range of the family, and that behind its last.
fn put_ends(ends: &mut Vec<u128>, family: Family, items: &[AddressItem]) -> Result<(), NoMemory> {
    for item in items {
        if let Some((first, last)) = ends_of(family, item) {
            ends.push(first)?;
            ends.push(last.saturating_add(1))?;
        }
    }
    Ok(())
}

// Each so many-th end, so that some `most` of them are left.
fn thinned(alloc: Global, ends: &[u128], most: usize) -> Result<Vec<u128>, NoMemory>
    requires { 0 < most }
{
    let mut cuts = Vec::new(alloc);
    for end in ends.iter().step_by(ends.len() / most + 1) {
        cuts.push(*end)?;
    }
    Ok(cuts)
}
