ghost use Rattle.std.specs.Prelude.{◌≡◌, ◌≤◌, length, IfOk};
ghost use Rattle.spd_line.specs.Policy.{most_lines};
ghost use Rattle.cert_rows.specs.Gathered.{AreGathered, rows_at};

use crate::NoMemory;
use crate::boxes::{Boxes, Mark};
use crate::gateway::Gateway;
use sel_tree::BoxTree;
use spd_line::Lines;
use std::alloc::Global;

/// The boxes of a gateway's policy as A sees them, line by line, in which the first that meets
/// another box is found without a look at each; and the mark of each at the same index.
#[derive(Drop)]
pub struct Side {
    pub regions: BoxTree,
    pub marks: Vec<Mark>,
    pub ghost alike: { length marks.items ≡ length regions },
}

impl Side {
    /// The boxes in the order of the policy's lines and within a line in the order of
    /// `spd_line::boxes`, those of `final` last.
    ///
    /// Takes n log n time for n boxes, and memory in proportion to them, some 300 bytes for each.
    pub fn new<L: Lines>(alloc: Global, lines: &L, gateway: Gateway) -> Result<Side, NoMemory>
        requires { length (L.lines lines.now) ≤ most_lines }
        ensures { IfOk result (λ side.
            AreGathered (rows_at gateway (L.lines lines.now)) side.regions side.marks.items) }
    {
        let Boxes { regions, marks } = Boxes::gather(alloc, lines, gateway)?;
        Ok(Side {
            regions: BoxTree::from_list(alloc, regions)?,
            marks,
        })
    }
}
