ghost use Rattle.std.specs.Prelude.{◌≡◌, ◌<◌, ◌^◌, length, option_map, slice_get};
ghost use Rattle.std.specs.Option.{option_copied};
ghost use Rattle.indexmap.specs.IndexMap.{values};
ghost use Rattle.spd_line.specs.Policy.{IsPolicy};
ghost use Rattle.spd_order.specs.inner.Edited.{IsEdited, edited_lines, without_item};

use crate::table::{Table, line_at_index};
use spd_line::{Line, Lines};
use std::marker::Model;

/// A policy as it would be after an edit, lent from the one that stands. A contract sees it as the
/// list of its lines.
#[derive(Debug, Drop)]
pub struct Edited<'a> {
    table: &'a Table,
    // The index of the line that is taken out, and then the line that is put in.
    gone: Option<usize>,
    put: Option<(usize, &'a Line)>,
    count: u32,
}

impl<'a> Model for Edited<'a> {
    ghost use Rattle.std.specs.Prelude.{List, option_map};
    ghost use Rattle.std.specs.Map.{values_of};
    ghost use Rattle.spd_line.specs.declared.line.LineParts.{LineParts};
    ghost use Rattle.spd_order.specs.inner.Edited.{IsEdited, edited_lines};

    ghost Value = { List LineParts };

    ghost view = { λ e. edited_lines e.gone (option_map (λ p. (p.0, p.1.now)) e.put)
        (values_of e.table.now.entries) };

    ghost invariant = { λ e. IsEdited e.gone (option_map (λ p. (p.0, p.1.now)) e.put) e.count
        (values_of e.table.now.entries) };
}

impl<'a> Edited<'a> {
    // The lines of the table, without the one at an index, and with another at an index among those
    // that are left.
    pub fn new(
        table: &'a Table,
        gone: Option<usize>,
        put: Option<(usize, &'a Line)>,
        count: u32,
    ) -> Self
        requires { IsEdited gone (option_map (λ p. (p.0, p.1.now)) put) count (values table.now) }
        ensures { result ≡ edited_lines gone (option_map (λ p. (p.0, p.1.now)) put.entry)
            (values table.now) }
    {
        Edited {
            table,
            gone,
            put,
            count,
        }
    }
}

impl Lines for Edited<'_> {
    ghost lines = { λ e. e };

    /// How many lines there are.
    fn count(&self) -> u32
        ensures count { result ≡ length self.now }
        ensures policy { IsPolicy self.now }
    {
        self.count
    }

    /// The line at a place, in constant time; `None` exactly outside 1 to the count.
    fn at(&self, place: u32) -> Option<&Line> {
        let index = (place as usize).checked_sub(1)?;
        match self.put {
            Some((at, line)) if index == at => Some(line),
            Some((at, _)) if at < index => left_at(self.table, self.gone, index - 1),
            _ => left_at(self.table, self.gone, index),
        }
    }
}

// The line at an index of those that are left.
fn left_at(table: &Table, gone: Option<usize>, index: usize) -> Option<&Line>
    requires { index < 2 ^ 32 }
    ensures { option_copied result ≡ slice_get (without_item gone (values table.now)) index }
{
    match gone {
        Some(gone) if gone <= index => line_at_index(table, index + 1),
        _ => line_at_index(table, index),
    }
}
