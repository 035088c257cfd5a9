ghost use Rattle.std.specs.Prelude.{◌≡◌, All, IfSome, true};
ghost use Rattle.sel_region.specs.Region.{some_has};
ghost use Rattle.sel_box.specs.Boxes.{box_has};
ghost use Rattle.spd_cache.specs.inner.Hulls.{AreHulls, HaveAll, StillHave, hulls_have};

use sel_box::{AnyBox, Box4, Box6, OfFamily, Point, Region};
use sel_region::Hull;
use spd_line::LineBox;

// A hull for the boxes of each family, where there are some.
#[derive(Clone, Copy, Debug)]
pub struct Hulls {
    four: Option<Box4>,
    six: Option<Box6>,
}

impl Hulls {
    // The hulls of some boxes.
    pub fn of(boxes: &[LineBox]) -> Hulls
        ensures { AreHulls result boxes.now }
    {
        let mut hulls = Hulls {
            four: None,
            six: None,
        };
        for part in boxes {
            hulls.widen(&part.region);
        }
        hulls
    }

    // Takes a box in.
    fn widen(&mut self, region: &AnyBox)
        ensures still { StillHave self.old self.new }
        ensures here { HaveAll self.new region.now }
    {
        match region {
            AnyBox::Four(ranges) => self.four = Some(joined(self.four, ranges)),
            AnyBox::Six(ranges) => self.six = Some(joined(self.six, ranges)),
        }
    }

    // Whether a hull has the point.
    #[inline]
    pub fn have(&self, point: &Point) -> bool
        ensures { result ≡ hulls_have self.now point.now }
    {
        has(&self.four, point) || has(&self.six, point)
    }
}

// A hull of both, where there is a first one.
fn joined<R: Hull>(hull: Option<R>, region: &R) -> R
    ensures first { IfSome hull (λ hull. R.within hull result ≡ true) }
    ensures second { R.within region.now result ≡ true }
{
    match hull {
        Some(hull) => hull.hull(region),
        None => *region,
    }
}

// Whether there is a hull and it has the point.
#[inline]
fn has<R: OfFamily>(hull: &Option<R>, point: &Point) -> bool
    ensures { result ≡ some_has (λ hull x. box_has (R.region hull) x) hull.now point.now }
{
    match hull {
        Some(hull) => hull.region().has(point),
        None => false,
    }
}
