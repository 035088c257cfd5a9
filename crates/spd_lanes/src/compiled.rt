ghost use Rattle.std.specs.Prelude.{◌≡◌, ◌≤◌, IfOk, IfErr, OnErr, OnOk, Ok, None, length};
ghost use Rattle.sel_box.specs.Point.{IsReal};
ghost use Rattle.spd_line.specs.Policy.{IsPolicy};
ghost use Rattle.spd_order.specs.Change.{changed};
ghost use Rattle.spd_cut.specs.Entries.{entries};
ghost use Rattle.spd_groups.specs.Groups.{looked};
ghost use Rattle.spd_lanes.specs.Faults.{IsEditFault};
ghost use Rattle.spd_lanes.specs.Policy.{IsLimitOf, changed_by, edited_lines, over, policy};
ghost use Rattle.spd_lanes.specs.inner.Cuts.{IsCut, IsCutAhead};

use crate::cut::{Cut, Cuts, cut_both};
use crate::{CompileFault, Edit, EditFault};
use lists::NoMemory;
use sel_box::{Direction, Point};
use spd_cut::Entry;
use spd_groups::Looked;
use spd_line::Lines;
use spd_order::{Change, Spd};
use std::alloc::Global;
use std::marker::Model;

/// A policy with its entries in both directions (RFC 4301 Appendix B). A contract sees the lines
/// and the limit of the entries: these follow from the lines.
#[derive(Debug, Drop)]
pub struct Compiled {
    spd: Spd,
    limit: u32,
    cuts: Cuts,
    alloc: Global,
}

impl Model for Compiled {
    ghost use Rattle.spd_lanes.specs.Policy.{Policy};
    ghost use Rattle.spd_lanes.specs.inner.Cuts.{IsCompiled};

    ghost Value = { Policy };

    ghost view = { λ c. record { lines = c.spd; limit = c.limit } };

    ghost invariant = { λ c. IsCompiled c.limit c.spd c.cuts };
}

impl Compiled {
    /// The policy with its entries. The limit is the most entries and pieces that there may be at
    /// once in a direction. `Limit` comes exactly where a count passes it, with the line of the
    /// first such count, outbound before inbound. Takes the time and the memory of `decorrelate` in
    /// both directions.
    pub fn new(alloc: Global, spd: Spd, limit: u32) -> Result<Compiled, CompileFault>
        ensures ok { IfOk result (λ compiled. compiled ≡ policy spd limit) }
        ensures within { OnOk result (over limit spd ≡ None) }
        ensures fault { IfErr result (IsLimitOf (over limit spd)) }
    {
        let _ = spd.count();
        let cuts = cut_both(alloc, &spd, limit)?;
        Ok(Compiled {
            spd,
            limit,
            cuts,
            alloc,
        })
    }

    /// The policy. Takes no memory.
    pub fn lines(&self) -> &Spd
        ensures lines { result.now ≡ self.now.lines }
        ensures policy { IsPolicy self.now.lines }
    {
        &self.spd
    }

    /// The entries in a direction, in the order of their lines. Takes no memory.
    pub fn entries(&self, direction: Direction) -> &[Entry]
        ensures { result.now ≡ entries direction self.now.lines }
    {
        self.cut_of(direction).entries.as_slice()
    }

    // The entries in a direction, and where they lie.
    fn cut_of(&self, direction: Direction) -> &Cut
        ensures { IsCut self.now.limit direction self.now.lines result.now }
    {
        match direction {
            Direction::Outbound => &self.cuts.outbound,
            Direction::Inbound => &self.cuts.inbound,
        }
    }

    /// What the policy says of a real point in a direction: the name and the judgement of its first
    /// line, found among the entries, with the point's key and that key's group (RFC 4301 sections
    /// 4.4.2 and 5.1). Takes the time of the index to find the point, and time and memory for the
    /// group.
    pub fn look(&self, direction: Direction, point: &Point) -> Result<Looked, NoMemory>
        requires { IsReal point.now }
        ensures { IfOk result (λ found. found ≡ looked direction point.now self.now.lines) }
    {
        let cut = self.cut_of(direction);
        let lines = self.lines();
        let list = cut.entries.as_slice();
        spd_groups::look(self.alloc, lines, list, &cut.finder, direction, point)
    }

    /// Edits the policy, and cuts it anew in both directions before anything is changed: after each
    /// refusal all is as before.
    ///
    /// `Order` comes exactly where the edit has a fault, then `Limit` exactly where the edited
    /// policy passes the limit, outbound before inbound. Takes the time and the memory of
    /// `decorrelate` in both directions.
    pub fn edit(&mut self, change: Edit) -> Result<(), EditFault>
        ensures ok { OnOk result (
            edited_lines self.old.limit (changed_by change self.old.lines) ≡ Ok self.new.lines) }
        ensures limit { self.new.limit ≡ self.old.limit }
        ensures policy { IsPolicy self.new.lines }
        ensures fault { IfErr result
            (IsEditFault (edited_lines self.old.limit (changed_by change self.old.lines))) }
        ensures err { OnErr result (self.new ≡ self.old) }
    {
        let cuts = self.cut_ahead(change.lent())?;
        apply(&mut self.spd, change)?;
        self.cuts = cuts;
        Ok(())
    }

    // What the policy is cut into after an edit.
    fn cut_ahead(&self, change: Change) -> Result<Cuts, EditFault>
        ensures ok { IfOk result (IsCutAhead self.now.limit (changed change.entry self.now.lines)) }
        ensures fault { IfErr result
            (IsEditFault (edited_lines self.now.limit (changed change.entry self.now.lines))) }
    {
        let edited = self.spd.preview(change)?;
        let _ = edited.count();
        Ok(cut_both(self.alloc, &edited, self.limit)?)
    }
}

// Makes an edit.
fn apply(spd: &mut Spd, change: Edit) -> Result<(), NoMemory>
    ensures ok { OnOk result (changed_by change spd.old ≡ Ok spd.new) }
    ensures err { OnErr result (spd.new ≡ spd.old) }
{
    match change {
        Edit::Insert { place, line } => match spd.insert(place, line) {
            Ok(()) => Ok(()),
            Err(_) => Err(NoMemory),
        },
        Edit::Delete { name } => match spd.delete(&name) {
            Ok(_) => Ok(()),
            Err(_) => Err(NoMemory),
        },
        Edit::Move { name, place } => match spd.shift(&name, place) {
            Ok(()) => Ok(()),
            Err(_) => Err(NoMemory),
        },
    }
}
