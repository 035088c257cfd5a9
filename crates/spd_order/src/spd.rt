ghost use Rattle.std.specs.Prelude.{◌≡◌, ◌≢◌, ◌+◌, ◌∷◌, ◌++◌, [], Ok, Err, Some, None, length};
ghost use Rattle.std.specs.Prelude.{IfOk, IfErr, OnOk, OnErr};
ghost use Rattle.std.specs.Result.{result_err};
ghost use Rattle.spd_line.specs.Policy.{IsPolicy};
ghost use Rattle.spd_order.specs.Edits.{deleted, inserted, is_place, moved, policy_fault};
ghost use Rattle.spd_order.specs.Fault.{IsFaultOf};
ghost use Rattle.spd_order.specs.Names.{is_taken, named_line, place_in};

use crate::fault::{InsertRefused, OrderFault};
use crate::table::{Table, insert_at, line_at_index, move_line, remove_at};
use sel_text::Name;
use spd_line::{FINAL, Line, LineList, Lines, MOST_LINES};
use std::alloc::Global;
use std::marker::Model;

mod preview;

/// An ordered policy (RFC 4301 section 4.4.1): at most 4,096 lines, no two of one name and none
/// named `final`, the name of the line behind the last. A contract sees it as the list of its
/// lines.
#[derive(Debug, Drop)]
pub struct Spd {
    table: Table,
}

impl Model for Spd {
    ghost use Rattle.std.specs.Prelude.{List};
    ghost use Rattle.std.specs.Map.{values_of};
    ghost use Rattle.spd_line.specs.declared.line.LineParts.{LineParts};
    ghost use Rattle.spd_order.specs.inner.Kept.{HoldsPolicy};

    ghost Value = { List LineParts };

    ghost view = { λ s. values_of s.table.entries };

    ghost invariant = { λ s. HoldsPolicy s.table.entries };
}

impl Spd {
    /// The policy of these lines, in their order: `TooManyLines` exactly where there are more than
    /// 4,096, `NameTaken` exactly where two have one name or one is `final`. Takes time by the
    /// number of lines.
    pub fn from_lines(alloc: Global, lines: LineList) -> Result<Spd, OrderFault>
        ensures ok { IfOk result (λ spd. spd ≡ lines) }
        ensures policy { IfOk result IsPolicy }
        ensures made { OnOk result (policy_fault lines ≡ None) }
        ensures fault { IfErr result (λ fault. fault ≢ OrderFault.NoMemory
            → policy_fault lines ≡ Some fault) }
    {
        let count = lines.count();
        if count > MOST_LINES {
            return Err(OrderFault::TooManyLines);
        }
        let mut spd = Spd {
            table: Table::with_capacity(alloc, count as usize)?,
        };
        for line in lines.into_vec() {
            spd.push(line)?;
        }
        Ok(spd)
    }

    // Puts a line behind the last.
    #[tactic(auto, using(crate::proofs::MayEdit::inserted_end))]
    fn push(&mut self, line: Line) -> Result<(), OrderFault>
        ensures ok { OnOk result (self.new ≡ self.old ++ line ∷ []) }
        ensures fault { IfErr result (IsFaultOf (inserted (length self.old + 1) line self.old)) }
        ensures policy { IsPolicy self.new }
    {
        let end = self.count() + 1;
        match self.insert(end, line) {
            Ok(()) => Ok(()),
            Err(refused) => Err(refused.fault),
        }
    }

    /// Puts a line at a place, which is 1 to the count plus 1; the lines from there on move back by
    /// one. Where it is refused, it comes back and nothing has changed: `TooManyLines` exactly
    /// where 4,096 lines stand, then `NameTaken` where a line has its name or it is `final`, then
    /// `BadPlace`, and `NoMemory` only where none of these applies. Takes time by the number of
    /// lines behind the place.
    pub fn insert(&mut self, place: u32, line: Line) -> Result<(), InsertRefused>
        ensures ok { OnOk result (inserted place line self.old ≡ Ok self.new) }
        ensures fault { IfErr result (λ refused.
            IsFaultOf (inserted place line self.old) refused.fault) }
        ensures line { IfErr result (λ refused. refused.line ≡ line) }
        ensures err { OnErr result (self.new ≡ self.old) }
        ensures policy { IsPolicy self.new }
    {
        if let Some(fault) = self.insert_fault(place, &line) {
            return Err(InsertRefused { fault, line });
        }
        if let Err(line) = insert_at(&mut self.table, place as usize - 1, line) {
            return Err(InsertRefused {
                fault: OrderFault::NoMemory,
                line,
            });
        }
        Ok(())
    }

    // Why a line can't be inserted at a place, but for memory.
    fn insert_fault(&self, place: u32, line: &Line) -> Option<OrderFault>
        ensures { result ≡ result_err (inserted place line.now self.now) }
    {
        let count = self.count();
        if count >= MOST_LINES {
            return Some(OrderFault::TooManyLines);
        }
        if self.is_taken(&line.parts().name) {
            return Some(OrderFault::NameTaken);
        }
        if !is_place(place, count + 1) {
            return Some(OrderFault::BadPlace);
        }
        None
    }

    // Whether the name is that of a line, `final` among them.
    #[tactic(auto, using(crate::proofs::Entries::taken_by_table))]
    fn is_taken(&self, name: &Name) -> bool
        ensures { result ≡ is_taken name.now self.now }
    {
        self.table.contains_key(name) || name.as_bytes() == FINAL
    }

    /// Takes the line of a name out and gives it back; those behind it move up by one. Exactly
    /// where no line has the name, as none has `final`, it is `NoSuchName`, and nothing has
    /// changed. Takes no memory, and time by the number of lines behind it.
    pub fn delete(&mut self, name: &Name) -> Result<Line, OrderFault>
        ensures ok { OnOk result (deleted name.now self.old ≡ Ok self.new) }
        ensures line { IfOk result (λ line. named_line name.now self.old ≡ Some line) }
        ensures fault { IfErr result (λ fault. deleted name.now self.old ≡ Err fault) }
        ensures err { OnErr result (self.new ≡ self.old) }
        ensures policy { IsPolicy self.new }
    {
        let Some(index) = self.table.get_index_of(name) else {
            return Err(OrderFault::NoSuchName);
        };
        Ok(remove_at(&mut self.table, index))
    }

    /// Moves the line of a name to a place, which is 1 to the count; all others keep their order.
    /// Exactly where no line has the name, as none has `final`, it is `NoSuchName`, and then
    /// exactly at another place `BadPlace`; nothing has changed then. Takes no memory, and time by
    /// the number of lines between the two places.
    pub fn shift(&mut self, name: &Name, place: u32) -> Result<(), OrderFault>
        ensures ok { OnOk result (moved name.now place self.old ≡ Ok self.new) }
        ensures fault { IfErr result (λ fault. moved name.now place self.old ≡ Err fault) }
        ensures err { OnErr result (self.new ≡ self.old) }
        ensures policy { IsPolicy self.new }
    {
        let Some(index) = self.table.get_index_of(name) else {
            return Err(OrderFault::NoSuchName);
        };
        if !is_place(place, self.count()) {
            return Err(OrderFault::BadPlace);
        }
        move_line(&mut self.table, index, place as usize - 1);
        Ok(())
    }

    /// The place of the line of a name; `None` exactly where no line has it. Takes no memory, and
    /// constant time over many calls.
    pub fn place_of(&self, name: &Name) -> Option<u32>
        ensures place { result ≡ place_in name.now self.now }
        ensures policy { IsPolicy self.now }
    {
        self.table.get_index_of(name).map(|index| index as u32 + 1)
    }
}

impl Lines for Spd {
    ghost lines = { λ s. s };

    /// How many lines there are.
    fn count(&self) -> u32
        ensures count { result ≡ length self.now }
        ensures policy { IsPolicy self.now }
    {
        self.table.len() as u32
    }

    /// The line at a place, in constant time; `None` exactly outside 1 to the count.
    fn at(&self, place: u32) -> Option<&Line> {
        let index = (place as usize).checked_sub(1)?;
        line_at_index(&self.table, index)
    }
}

// Whether a place is one from 1 to the last.
fn is_place(place: u32, last: u32) -> bool
    ensures { result ≡ is_place place last }
{
    1 <= place && place <= last
}
