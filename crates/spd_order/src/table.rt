ghost use Rattle.std.specs.Prelude.{◌≡◌, ◌+◌, ◌<◌, ◌≤◌, Some, None, insert, length, remove};
ghost use Rattle.std.specs.Prelude.{OnOk, OnErr, IfErr, slice_get};
ghost use Rattle.std.specs.Option.{option_copied};
ghost use Rattle.std.specs.Str.{bytes_eq};
ghost use Rattle.indexmap.specs.IndexMap.{get, values};
ghost use Rattle.spd_order.specs.Edits.{moved_item};

use indexmap::IndexMap;
use sel_text::Name;
use spd_line::Line;

// The lines of a policy in their order, each under its name. A key is kept beside its line, which
// has the name too: what is given out at a place is a whole line.
pub type Table = IndexMap<Name, Line>;

// The line at an index, which begins at 0.
pub fn line_at_index(table: &Table, index: usize) -> Option<&Line>
    ensures { option_copied result ≡ slice_get (values table.now) index }
{
    let (_, line) = table.get_index(index)?;
    Some(line)
}

// Puts a line in at an index, under a name that the table lacks. Where there is no memory, it comes
// back.
pub fn insert_at(table: &mut Table, index: usize, line: Line) -> Result<(), Line>
    requires within { index ≤ length table.old.entries }
    requires absent { get bytes_eq table.old line.name ≡ None }
    ensures ok { OnOk result (
        table.new.entries ≡ insert table.old.entries index (line.name, line)) }
    ensures err { OnErr result (table.new.entries ≡ table.old.entries) }
    ensures line { IfErr result (λ back. back ≡ line) }
{
    let name = line.parts().name;
    match table.shift_insert(index, name, line) {
        Ok(_) => Ok(()),
        Err(failed) => {
            let (_, line) = failed.value;
            Err(line)
        }
    }
}

// Takes the line at an index out.
#[tactic(auto, using(crate::proofs::Entries::slice_get_values))]
pub fn remove_at(table: &mut Table, index: usize) -> Line
    requires { index < length table.old.entries }
    ensures line { slice_get (values table.old) index ≡ Some result }
    ensures entries { table.new.entries ≡ remove table.old.entries index }
{
    let (_, line) = table.shift_remove_index(index).unwrap();
    line
}

// Moves the line at an index to another.
pub fn move_line(table: &mut Table, from: usize, to: usize)
    requires from { from < length table.old.entries }
    requires to { to < length table.old.entries }
    ensures { table.new.entries ≡ moved_item from to table.old.entries }
{
    table.move_index(from, to);
}
