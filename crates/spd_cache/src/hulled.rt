ghost use Rattle.std.specs.Prelude.{◌≡◌};
ghost use Rattle.std.specs.Option.{option_copied};
ghost use Rattle.spd_cache.specs.Cached.{first_box};

use crate::hulls::Hulls;
use sel_box::{Point, Region};
use spd_line::{Group, LineBox};
use std::marker::Model;

// A group with hulls of its boxes, so that one test tells of most points that no box has them. A
// contract sees the group.
#[derive(Debug, Drop)]
pub struct HulledGroup {
    group: Group,
    hulls: Hulls,
}

impl Model for HulledGroup {
    ghost use Rattle.std.specs.Prelude.{List};
    ghost use Rattle.spd_line.specs.declared.line_boxes.LineBox.{LineBox};
    ghost use Rattle.spd_cache.specs.inner.Hulls.{AreHulls};

    ghost Value = { List LineBox };

    ghost view = { λ g. g.group };

    ghost invariant = { λ g. AreHulls g.hulls g.group };
}

impl HulledGroup {
    // The group with its hulls. Takes one pass over it, and no memory.
    pub fn new(group: Group) -> HulledGroup
        ensures { result ≡ group }
    {
        let hulls = Hulls::of(group.as_slice());
        HulledGroup { group, hulls }
    }

    // The group alone.
    pub fn into_group(self) -> Group
        ensures { result ≡ self }
    {
        self.group
    }

    // The first box that has the point.
    #[inline]
    pub fn first_box(&self, point: &Point) -> Option<&LineBox>
        ensures { option_copied result ≡ first_box point.now self.now }
    {
        if !self.hulls.have(point) {
            return None;
        }
        self.group.iter().find(|part| part.region.has(point))
    }
}
