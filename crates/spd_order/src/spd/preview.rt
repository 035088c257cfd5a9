// The policy as it would be after an edit.
ghost use Rattle.std.specs.Prelude.{◌≡◌, Ok, Err, IfOk, IfErr};
ghost use Rattle.spd_line.specs.Policy.{IsPolicy};
ghost use Rattle.spd_order.specs.Change.{changed};
ghost use Rattle.spd_order.specs.Edits.{deleted, inserted, moved};

use crate::change::Change;
use crate::edited::Edited;
use crate::fault::OrderFault;
use crate::spd::{Spd, is_place};
use crate::table::line_at_index;
use sel_text::Name;
use spd_line::{Line, Lines};

impl Spd {
    /// The policy as it would be after an edit, which is refused exactly where the edit would be,
    /// but for a lack of memory. Takes no memory, and constant time over many calls.
    pub fn preview<'a>(&'a self, change: Change<'a>) -> Result<Edited<'a>, OrderFault>
        ensures ok { IfOk result (λ edited. changed change.entry self.now ≡ Ok edited) }
        ensures fault { IfErr result (λ fault. changed change.entry self.now ≡ Err fault) }
    {
        match change {
            Change::Insert { place, line } => self.with_line(place, line),
            Change::Delete { name } => self.without_line(name),
            Change::Move { name, place } => self.with_moved(name, place),
        }
    }

    // With a line at a place.
    fn with_line<'a>(&'a self, place: u32, line: &'a Line) -> Result<Edited<'a>, OrderFault>
        ensures ok { IfOk result (λ edited. inserted place line.now self.now ≡ Ok edited) }
        ensures fault { IfErr result (λ fault. inserted place line.now self.now ≡ Err fault) }
    {
        if let Some(fault) = self.insert_fault(place, line) {
            return Err(fault);
        }
        let put = Some((place as usize - 1, line));
        Ok(Edited::new(&self.table, None, put, self.count() + 1))
    }

    // Without the line of a name.
    fn without_line(&self, name: &Name) -> Result<Edited<'_>, OrderFault>
        ensures ok { IfOk result (λ edited. deleted name.now self.now ≡ Ok edited) }
        ensures fault { IfErr result (λ fault. deleted name.now self.now ≡ Err fault) }
    {
        let Some(index) = self.table.get_index_of(name) else {
            return Err(OrderFault::NoSuchName);
        };
        Ok(Edited::new(&self.table, Some(index), None, self.count() - 1))
    }

    // With the line of a name at a place.
    fn with_moved(&self, name: &Name, place: u32) -> Result<Edited<'_>, OrderFault>
        ensures ok { IfOk result (λ edited. moved name.now place self.now ≡ Ok edited) }
        ensures fault { IfErr result (λ fault. moved name.now place self.now ≡ Err fault) }
    {
        let Some(index) = self.table.get_index_of(name) else {
            return Err(OrderFault::NoSuchName);
        };
        if !is_place(place, self.count()) {
            return Err(OrderFault::BadPlace);
        }
        match line_at_index(&self.table, index) {
            Some(line) => {
                let put = Some((place as usize - 1, line));
                Ok(Edited::new(&self.table, Some(index), put, self.count()))
            }
            None => unreachable!(),
        }
    }
}
