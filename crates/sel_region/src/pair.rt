use crate::hull::Hull;
use crate::region::{Frame, Region};
use lists::NoMemory;

/// The product of two regions: the pairs of a point of the first and a point of the second.
///
/// Pairs nest: `Pair<Interval<V4>, Pair<Interval<V4>, Interval<Proto>>>` has three axes, in that
/// order.
#[derive(Clone, Copy, Debug, PartialEq, Eq, Hash)]
pub struct Pair<R, S> {
    /// The region of the axes that come first.
    pub first: R,
    /// The region of the axes that come after them.
    pub second: S,
}

impl<R: Region, S: Region> Region for Pair<R, S> {
    ghost use Rattle.sel_region.specs.Pair.{pair_at_most, pair_has, pair_low, pair_meet};
    ghost use Rattle.sel_region.specs.Pair.{pair_minus, pair_within};
    ghost use Rattle.sel_region.specs.laws.PairLaws.{pair_laws};

    type Point = (R::Point, S::Point);

    ghost has = { pair_has R.has S.has };

    ghost at_most = { pair_at_most R.at_most S.at_most };

    ghost low = { pair_low R.low S.low };

    ghost meet = { pair_meet R.meet S.meet };

    ghost within = { pair_within R.within S.within };

    ghost minus = { pair_minus R.meet S.meet R.minus S.minus };

    ghost laws = { pair_laws R.laws S.laws };

    #[inline]
    fn has(&self, point: &Self::Point) -> bool {
        // Both parts are always tested, as both ends of an interval are.
        self.first.has(&point.0) & self.second.has(&point.1)
    }

    #[inline]
    fn meets(&self, other: &Self) -> bool {
        self.first.meets(&other.first) & self.second.meets(&other.second)
    }

    #[inline]
    fn meet(&self, other: &Self) -> Option<Self> {
        let first = self.first.meet(&other.first)?;
        let second = self.second.meet(&other.second)?;
        Some(Pair { first, second })
    }

    #[inline]
    fn within(&self, other: &Self) -> bool {
        self.first.within(&other.first) & self.second.within(&other.second)
    }

    #[inline]
    fn low(&self) -> Self::Point {
        (self.first.low(), self.second.low())
    }

    #[inline]
    fn minus_in<F: Frame<Self>>(
        &self,
        other: &Self,
        frame: F,
        pieces: &mut Vec<F::Whole>,
    ) -> Result<(), NoMemory> {
        let first = self.first.meet(&other.first).unwrap();
        let second = self.second;
        self.first
            .minus_in(&other.first, BesideSecond { second, frame }, pieces)?;
        self.second
            .minus_in(&other.second, BesideFirst { first, frame }, pieces)
    }
}

impl<R: Hull, S: Hull> Hull for Pair<R, S> {
    ghost use Rattle.sel_region.specs.Pair.{pair_hull};
    ghost use Rattle.sel_region.specs.laws.HullLaws.{pair_hull_laws};

    ghost hull = { pair_hull R.hull S.hull };

    ghost hull_laws = { pair_hull_laws R.hull_laws S.hull_laws };

    #[inline]
    fn hull(&self, other: &Self) -> Self {
        Pair {
            first: self.first.hull(&other.first),
            second: self.second.hull(&other.second),
        }
    }
}

/// The frame of the first part of a pair: the second part beside it, in the pair's own frame.
#[derive(Clone, Copy)]
struct BesideSecond<S, F> {
    second: S,
    frame: F,
}

impl<R: Copy, S: Copy, F: Frame<Pair<R, S>>> Frame<R> for BesideSecond<S, F> {
    ghost use Rattle.sel_region.specs.Pair.{pair_of};

    type Whole = F::Whole;

    ghost around = { λ beside first. F.around beside.frame (pair_of first beside.second) };

    #[inline]
    fn around(&self, first: R) -> F::Whole {
        let second = self.second;
        self.frame.around(Pair { first, second })
    }
}

/// The frame of the second part of a pair: the first part beside it, in the pair's own frame.
#[derive(Clone, Copy)]
struct BesideFirst<R, F> {
    first: R,
    frame: F,
}

impl<R: Copy, S: Copy, F: Frame<Pair<R, S>>> Frame<S> for BesideFirst<R, F> {
    ghost use Rattle.sel_region.specs.Pair.{pair_of};

    type Whole = F::Whole;

    ghost around = { λ beside second. F.around beside.frame (pair_of beside.first second) };

    #[inline]
    fn around(&self, second: S) -> F::Whole {
        let first = self.first;
        self.frame.around(Pair { first, second })
    }
}
