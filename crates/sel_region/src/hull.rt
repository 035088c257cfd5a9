ghost use Rattle.std.specs.Prelude.{◌≡◌};
ghost use Rattle.sel_region.specs.Region.{IsHull};

use crate::region::Region;

/// Regions of which every two have a hull: a least region that has all points of both.
///
/// Each kind proves the laws of `IsHull` (`specs/Region.antt`). Two boxes of different families lie
/// in no region, so that boxes of either family have no hull.
pub trait Hull: Region {
    ghost hull: { Self → Self → Self };

    /// The least region that has all points of both: on each axis it goes from the lesser low to
    /// the greater high. It may have points that neither has. It takes no memory, and time in
    /// proportion to the number of axes.
    fn hull(&self, other: &Self) -> Self
        ensures { result ≡ hull self.now other.now };

    // What the call says of the regions that both are within.
    ghost hull_laws: { IsHull Self.within hull };
}
