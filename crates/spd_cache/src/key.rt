ghost use Rattle.std.specs.Cmp.{partial_equiv_from_equiv};
ghost use Rattle.std.specs.Hash as fed;
ghost use Rattle.spd_cache.specs.Key.{same_key};
ghost use Rattle.spd_cache.specs.laws.Keys.{key_decides, key_equivalence};

use sel_box::Direction;
use sel_text::Name;
use spd_line::Pins;

/// What tells groups of a cache apart (RFC 4301 section 4.4.2): their direction, the name of the
/// line that they come from, and the values of its flagged selectors.
#[derive(Clone, Copy, Debug, Hash)]
pub struct Key {
    pub direction: Direction,
    /// The name of the line, `final` of the one behind the last.
    pub name: Name,
    pub pins: Pins,
}

impl PartialEq for Key {
    ghost eq = { same_key };

    ghost laws = { partial_equiv_from_equiv key_equivalence };

    fn eq(&self, other: &Key) -> bool {
        self.direction == other.direction && self.name == other.name && self.pins == other.pins
    }
}

impl Eq for Key {
    ghost laws = { key_equivalence };
}

#[derived]
impl Hash for Key {
    ghost respects_eq = { (fed.same_Alike _ key_decides).fed };
}
