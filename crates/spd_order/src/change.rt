use sel_text::Name;
use spd_line::Line;

/// An edit of an ordered policy that is asked for (RFC 4301 section 4.4.1). Places count from 1.
#[derive(Clone, Copy, Debug)]
pub enum Change<'a> {
    /// The line is put in at the place.
    Insert { place: u32, line: &'a Line },
    /// The line of the name is taken out.
    Delete { name: &'a Name },
    /// The line of the name is moved to the place.
    Move { name: &'a Name, place: u32 },
}
