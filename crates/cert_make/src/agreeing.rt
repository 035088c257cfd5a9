ghost use Rattle.std.specs.Prelude.{◌≡◌, ◌≤◌, ◌↔◌, List, length, true, IfOk};
ghost use Rattle.spd_line.specs.Agree.{Agree};
ghost use Rattle.spd_line.specs.Policy.{most_lines};
ghost use Rattle.spd_line.specs.declared.line.LineParts.{LineParts};
ghost use Rattle.cert_text.specs.Valid.{whole_boxes};
ghost use Rattle.cert_make.specs.inner.Sides.{AreSides, are_valid};

use crate::rule::node_for;
use crate::starts::Starts;
use crate::{NoMemory, laws};
use cert_check::node_holds;
use cert_rows::{Gateway, Side, Todo};
use spd_line::Lines;
use std::alloc::Global;

/// Whether two policies agree: B judges each packet that comes in as A judges it when it goes out
/// (RFC 4301 section 5).
///
/// Goes through the nodes that `make` writes, up to the first that doesn't hold, and so takes what
/// `make` takes. Neither policy is cut, and nothing is written.
pub fn agree<L: Lines, M: Lines>(alloc: Global, a: &L, b: &M) -> Result<bool, NoMemory>
    requires a_few { length (L.lines a.now) ≤ most_lines }
    requires b_few { length (M.lines b.now) ≤ most_lines }
    ensures { IfOk result (λ yes. (yes ≡ true) ↔ Agree (L.lines a.now) (M.lines b.now)) }
{
    laws::made_is_valid();
    cert_check::laws::valid_agrees();
    let ours = Side::new(alloc, a, Gateway::A)?;
    let theirs = Side::new(alloc, b, Gateway::B)?;
    let yes = all_hold(alloc, &ours, &theirs)?;
    Ok(yes)
}

// Whether each node of the trees over all boxes holds.
fn all_hold(alloc: Global, ours: &Side, theirs: &Side) -> Result<bool, NoMemory>
    ensures { IfOk result (λ yes. (a b : List LineParts) → AreSides a b ours.now theirs.now
        → yes ≡ are_valid a b ours.now theirs.now whole_boxes) }
{
    let mut todo = Todo::new(alloc)?;
    let mut starts = Starts::new(alloc);
    while let Some(region) = todo.pop() {
        let mut start = starts.pop();
        let node = node_for(ours, theirs, &region, &mut start);
        let held = node_holds(ours, theirs, &node, &region);
        if !held {
            return Ok(false);
        }
        todo.add_parts(&node, &region)?;
        starts.add_behind(&node, start)?;
    }
    Ok(true)
}
