ghost use Rattle.std.specs.Prelude.{◌≡◌, ◌++◌, IfOk, OnOk, map};
ghost use Rattle.sel_region.specs.Pair.{pair_of};
ghost use Rattle.spd_line.specs.LineBoxes.{products};

use crate::NoMemory;
use sel_region::Pair;
use std::alloc::Global;

// Each of the first regions with each of the second, in the order of the first and within it of the
// second. Takes one piece of memory for all of them.
#[tactic(auto, unfolding(crate::specs::LineBoxes::products))]
pub fn products<R: Copy, S: Copy>(
    alloc: Global,
    firsts: &[R],
    seconds: &[S],
) -> Result<Vec<Pair<R, S>>, NoMemory>
    ensures { IfOk result (λ list. list.items ≡ products firsts.now seconds.now) }
{
    let count = firsts.len().saturating_mul(seconds.len());
    let mut list = Vec::with_capacity(alloc, count)?;
    for first in firsts {
        put_products(&mut list, *first, seconds)?;
    }
    Ok(list)
}

fn put_products<R: Copy, S: Copy>(
    list: &mut Vec<Pair<R, S>>,
    first: R,
    seconds: &[S],
) -> Result<(), NoMemory>
    ensures { OnOk result
        (list.new.items ≡ list.old.items ++ map (λ second. pair_of first second) seconds.now) }
{
    for second in seconds {
        let second = *second;
        list.push(Pair { first, second })?;
    }
    Ok(())
}
