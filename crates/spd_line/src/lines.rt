ghost use Rattle.std.specs.Prelude.{◌≡◌, ◌<◌, ◌≤◌, ◌∷◌, ◌++◌, [], length, List, Some, OnOk};
ghost use Rattle.std.specs.Prelude.{OnErr, slice_get, vec_len};
ghost use Rattle.std.specs.Option.{option_copied};
ghost use Rattle.spd_line.specs.declared.line.LineParts.{LineParts};
ghost use Rattle.spd_line.specs.First.{line_at};

use crate::{Line, NoMemory};
use std::alloc::Global;
use std::marker::Model;

/// An ordered list of lines. Places are counted from 1.
pub trait Lines {
    /// The lines, first to last.
    ghost lines: { Self → List LineParts };

    /// How many lines there are.
    fn count(&self) -> u32
        ensures { result ≡ length (lines self.now) };

    /// The line at a place; `None` exactly outside 1 to the count.
    fn at(&self, place: u32) -> Option<&Line>
        ensures { option_copied result ≡ line_at (lines self.now) place };

    /// The line at a place, which is one of theirs.
    final fn line(&self, place: u32) -> &Line
        requires first { 1 ≤ place }
        requires last { place ≤ length (lines self.now) }
        ensures { line_at (lines self.now) place ≡ Some result.now }
    {
        match self.at(place) {
            Some(line) => line,
            None => unreachable!(),
        }
    }
}

/// A plain list of lines, at most 65,536 of them.
#[derive(Debug, Drop)]
pub struct LineList {
    lines: Vec<Line>,
}

impl Model for LineList {
    ghost use Rattle.std.specs.Prelude.{◌≤◌, List, length};
    ghost use Rattle.spd_line.specs.declared.line.LineParts.{LineParts};

    ghost Value = { List LineParts };

    ghost view = { λ l. l.lines.items };

    ghost invariant = { λ l. length l.lines.items ≤ 65536 };
}

impl LineList {
    /// The empty list. Takes no memory.
    pub fn new(alloc: Global) -> Self
        ensures { result ≡ [] }
    {
        LineList {
            lines: Vec::new(alloc),
        }
    }

    /// Puts a line at the end. Where there is no memory, the list is unchanged and the line is
    /// dropped.
    pub fn push(&mut self, line: Line) -> Result<(), NoMemory>
        requires { length self.old < 65536 }
        ensures ok { OnOk result (self.new ≡ self.old ++ line ∷ []) }
        ensures err { OnErr result (self.new ≡ self.old) }
    {
        self.lines.push(line)?;
        Ok(())
    }

    /// How many lines there are.
    pub fn len(&self) -> usize
        ensures { result ≡ length self.now }
    {
        self.lines.len()
    }

    /// The line at an index, which begins at 0; `None` past the end.
    pub fn get(&self, index: usize) -> Option<&Line>
        ensures { option_copied result ≡ slice_get self.now index }
    {
        self.lines.get(index)
    }

    /// All lines, in order.
    pub fn as_slice(&self) -> &[Line]
        ensures { result.now ≡ self.now }
    {
        self.lines.as_slice()
    }

    /// The lines by themselves, in order.
    pub fn into_vec(self) -> Vec<Line>
        ensures items { result.items ≡ self }
        ensures len { vec_len result ≡ length self }
    {
        let LineList { lines } = self;
        lines
    }
}

impl Lines for LineList {
    ghost lines = { λ l. l };

    fn count(&self) -> u32 {
        self.lines.len() as u32
    }

    fn at(&self, place: u32) -> Option<&Line> {
        let index = (place as usize).checked_sub(1)?;
        self.lines.get(index)
    }
}
