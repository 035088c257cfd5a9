ghost use Rattle.std.specs.Prelude.{◌≡◌, List};
ghost use Rattle.spd_line.specs.declared.line.LineParts.{LineParts};
ghost use Rattle.spd_order.specs.Change.{changed};
ghost use Rattle.spd_lanes.specs.Policy.{changed_by};

use sel_text::Name;
use spd_line::Line;
use spd_order::Change;

/// An edit of a policy (RFC 4301 section 4.4.1). Places count from 1.
#[derive(Debug, Drop)]
pub enum Edit {
    /// The line is put in at the place.
    Insert { place: u32, line: Line },
    /// The line of the name is taken out.
    Delete { name: Name },
    /// The line of the name is moved to the place.
    Move { name: Name, place: u32 },
}

impl Edit {
    /// The same edit, with what it holds lent. Takes no memory.
    pub fn lent(&self) -> Change<'_>
        ensures { (lines : List LineParts) → changed result lines ≡ changed_by self.now lines }
    {
        match self {
            Edit::Insert { place, line } => Change::Insert {
                place: *place,
                line,
            },
            Edit::Delete { name } => Change::Delete { name },
            Edit::Move { name, place } => Change::Move {
                name,
                place: *place,
            },
        }
    }
}
