ghost use Rattle.std.specs.Prelude.{◌≡◌, ◌<◌, ◌≤◌, IfOk, length};
ghost use Rattle.pair_gap.specs.inner.Peer.{AreRuns, IsRun};

use crate::pairs::are_judged_alike;
use lists::{List, NoMemory};
use spd_cut::Entry;
use std::alloc::Global;

// For each entry, the index up to which those behind it are judged as it is. Takes time by the
// number of entries.
pub fn runs(alloc: Global, entries: &[Entry]) -> Result<List<usize>, NoMemory>
    ensures { IfOk result (AreRuns entries.now) }
{
    let mut ends = List::new(alloc);
    let mut end = 0;
    for index in 0..entries.len() {
        end = end_from(entries, index, end);
        ends.push(end)?;
    }
    Ok(ends)
}

// The end of the run that goes on at the index, or else begins there.
fn end_from(entries: &[Entry], index: usize, end: usize) -> usize
    requires within { index < length entries.now }
    requires run { index < end → IsRun entries.now index end }
    ensures { IsRun entries.now index result }
{
    if index < end {
        end
    } else {
        run_end(entries, index)
    }
}

// The index behind the entries that follow this one in a row and are judged as it is.
fn run_end(entries: &[Entry], from: usize) -> usize
    requires { from < length entries.now }
    ensures { IsRun entries.now from result }
{
    spd_line::laws::judgements_are_compared();
    let mut end = from + 1;
    while end < entries.len() && are_judged_alike(&entries[from], &entries[end]) {
        end += 1;
    }
    end
}
