ghost use Rattle.std.specs.Prelude.{◌≡◌, ◌≤◌, ◌++◌, [], length, IfOk, OnOk};
ghost use Rattle.spd_line.specs.Policy.{most_lines};
ghost use Rattle.cert_rows.specs.Gathered.{AreGathered, marks_in, regions_in};
ghost use Rattle.cert_rows.specs.Gathered.{row_seen, rows_at};

use crate::NoMemory;
use crate::gateway::Gateway;
use sel_box::RegionList;
use spd_line::{Judgement, LineBox, Lines};
use std::alloc::Global;

/// The line of a box, counted from 1, and how the line judges the box.
#[derive(Clone, Copy)]
pub struct Mark {
    pub line: u32,
    pub judgement: Judgement,
}

// Boxes, line by line: the region of each, and its mark at the same index.
#[derive(Drop)]
pub struct Boxes {
    pub regions: RegionList,
    pub marks: Vec<Mark>,
}

impl Boxes {
    // The boxes of a gateway's policy as A sees them, in the order of its lines and within a line
    // in the order of `spd_line::boxes`, those of `final` last.
    pub fn gather<L: Lines>(alloc: Global, lines: &L, gateway: Gateway) -> Result<Boxes, NoMemory>
        requires { length (L.lines lines.now) ≤ most_lines }
        ensures { IfOk result (λ boxes. AreGathered (rows_at gateway (L.lines lines.now))
            boxes.regions boxes.marks.items) }
    {
        let mut all = Boxes {
            regions: RegionList::new(alloc),
            marks: Vec::new(alloc),
        };
        let count = lines.count();
        for place in 1..count + 1 {
            let row = spd_line::boxes(alloc, lines.line(place), gateway.direction())?;
            all.add_row(gateway, place, row.as_slice())?;
        }
        all.add_row(gateway, count + 1, &spd_line::final_boxes())?;
        Ok(all)
    }

    // Puts the boxes of the line at a place at the end.
    fn add_row(&mut self, gateway: Gateway, place: u32, row: &[LineBox]) -> Result<(), NoMemory>
        ensures regions { OnOk result
            (self.new.regions ≡ self.old.regions ++ regions_in (row_seen gateway row.now)) }
        ensures marks { OnOk result
            (self.new.marks.items
            ≡ self.old.marks.items ++ marks_in place (row_seen gateway row.now)) }
    {
        for part in row {
            let LineBox { region, judgement } = gateway.box_seen(part);
            self.regions.push(region)?;
            self.marks.push(Mark {
                line: place,
                judgement,
            })?;
        }
        Ok(())
    }
}
