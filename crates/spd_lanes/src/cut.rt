ghost use Rattle.std.specs.Prelude.{◌≡◌, ◌≤◌, IfOk, IfErr, OnOk, None, length};
ghost use Rattle.spd_cut.specs.Entries.{entries};
ghost use Rattle.spd_lanes.specs.Policy.{IsLimitOf, over, over_in};
ghost use Rattle.spd_lanes.specs.inner.Cuts.{AreCuts, IsCut, regions};

use crate::CompileFault;
use lists::NoMemory;
use sel_box::{Direction, RegionList};
use spd_cut::{CutFault, Entry, EntryList, decorrelate};
use spd_find::Indexed;
use spd_line::Lines;
use std::alloc::Global;

// The entries of a policy in a direction, and an index of their regions, in the same order.
#[derive(Debug, Drop)]
pub struct Cut {
    pub entries: EntryList,
    pub finder: Indexed,
}

// Those of both directions.
#[derive(Debug, Drop)]
pub struct Cuts {
    pub outbound: Cut,
    pub inbound: Cut,
}

// Cuts a policy in both directions, outbound first.
pub fn cut_both<L: Lines>(alloc: Global, lines: &L, limit: u32) -> Result<Cuts, CompileFault>
    requires { length (L.lines lines.now) ≤ 4096 }
    ensures ok { IfOk result (AreCuts limit (L.lines lines.now)) }
    ensures fault { IfErr result (IsLimitOf (over limit (L.lines lines.now))) }
{
    let outbound = cut_one(alloc, lines, Direction::Outbound, limit)?;
    let inbound = cut_one(alloc, lines, Direction::Inbound, limit)?;
    Ok(Cuts { outbound, inbound })
}

// Cuts a policy in a direction.
fn cut_one<L: Lines>(
    alloc: Global,
    lines: &L,
    direction: Direction,
    limit: u32,
) -> Result<Cut, CompileFault>
    requires { length (L.lines lines.now) ≤ 4096 }
    ensures ok { IfOk result (IsCut limit direction (L.lines lines.now)) }
    ensures fault { IfErr result (IsLimitOf (over_in limit direction (L.lines lines.now))) }
{
    let entries = entries_of(alloc, lines, direction, limit)?;
    let finder = finder_of(alloc, entries.as_slice())?;
    Ok(Cut { entries, finder })
}

// The entries, or the limit with its direction.
fn entries_of<L: Lines>(
    alloc: Global,
    lines: &L,
    direction: Direction,
    limit: u32,
) -> Result<EntryList, CompileFault>
    requires { length (L.lines lines.now) ≤ 4096 }
    ensures ok { IfOk result (λ list. list ≡ entries direction (L.lines lines.now)) }
    ensures within { OnOk result (over_in limit direction (L.lines lines.now) ≡ None) }
    ensures fault { IfErr result (IsLimitOf (over_in limit direction (L.lines lines.now))) }
{
    match decorrelate(alloc, lines, direction, limit) {
        Ok(list) => Ok(list),
        Err(CutFault::Limit { line }) => Err(CompileFault::Limit { direction, line }),
        Err(CutFault::NoMemory) => Err(CompileFault::NoMemory),
    }
}

// An index of the regions of some entries.
fn finder_of(alloc: Global, entries: &[Entry]) -> Result<Indexed, NoMemory>
    ensures { IfOk result (λ finder. finder ≡ regions entries.now) }
{
    let mut list = RegionList::new(alloc);
    for entry in entries {
        list.push(entry.region)?;
    }
    Indexed::from_list(alloc, list)
}
