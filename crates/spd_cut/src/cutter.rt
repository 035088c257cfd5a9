ghost use Rattle.std.specs.Prelude.{◌≡◌, ◌≤◌, ◌∷◌, [], length, IfErr, OnOk};
ghost use Rattle.spd_cut.specs.Entries.{linked};
ghost use Rattle.spd_cut.specs.inner.Cut.{Continues, IsRefused};

use crate::family_cutter::FamilyCutter;
use crate::{CutFault, Entry, EntryList};
use sel_box::{AnyBox, Box4, Box6};
use spd_line::LineBox;
use std::alloc::Global;
use std::marker::Model;

// The boxes that were cut so far, those of each family by themselves, since none meets one of the
// other, and the entries that they gave.
#[derive(Drop)]
pub struct Cutter {
    four: FamilyCutter<Box4>,
    six: FamilyCutter<Box6>,
    entries: EntryList,
}

impl Model for Cutter {
    ghost use Rattle.spd_cut.specs.inner.Cut.{Cut, of_both};

    ghost Value = { Cut };

    ghost view = { λ c. record { earlier = of_both c.four c.six; entries = c.entries } };
}

impl Cutter {
    // Nothing is cut yet. Takes no memory.
    pub fn new(alloc: Global) -> Self
        ensures { result ≡ record { earlier = []; entries = [] } }
    {
        Cutter {
            four: FamilyCutter::new(alloc),
            six: FamilyCutter::new(alloc),
            entries: EntryList::new(alloc),
        }
    }

    // Cuts the boxes of the line at a place, in order.
    pub fn add_line(&mut self, boxes: &[LineBox], place: u32, limit: u32) -> Result<(), CutFault>
        requires { length self.old.entries ≤ limit }
        ensures cut { OnOk result (Continues limit self.old (linked place boxes.now) self.new) }
        ensures few { OnOk result (length self.new.entries ≤ limit) }
        ensures fault { IfErr result (IsRefused limit self.old (linked place boxes.now)) }
    {
        for part in boxes {
            let uncut = Entry {
                region: part.region,
                judgement: part.judgement,
                link: place,
            };
            self.add(&uncut, limit)?;
        }
        Ok(())
    }

    // Cuts a box by all before it.
    fn add(&mut self, uncut: &Entry, limit: u32) -> Result<(), CutFault>
        requires { length self.old.entries ≤ limit }
        ensures cut { OnOk result (Continues limit self.old (uncut.now ∷ []) self.new) }
        ensures few { OnOk result (length self.new.entries ≤ limit) }
        ensures fault { IfErr result (IsRefused limit self.old (uncut.now ∷ [])) }
    {
        match uncut.region {
            AnyBox::Four(region) => self.four.add(region, uncut, limit, &mut self.entries),
            AnyBox::Six(region) => self.six.add(region, uncut, limit, &mut self.entries),
        }
    }

    // The entries of all boxes.
    pub fn into_entries(self) -> EntryList
        ensures { result ≡ self.entries }
    {
        let Cutter { entries, .. } = self;
        entries
    }
}
