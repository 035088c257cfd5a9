ghost use Rattle.std.specs.Prelude.{◌≡◌, ◌≤◌};
ghost use Rattle.sel_region.specs.Interval.{high_of, range_from, range_on};

use crate::axis::Axis;
use crate::hull::Hull;
use crate::region::{Frame, Region};
use lists::NoMemory;
use std::alloc::AllocError;
use std::marker::Model;

/// The numbers of an axis from a low one up to a high one, both included. A contract sees the low
/// number, and how many more there are above it.
#[derive_where(Copy, Debug, PartialEq, Eq, Hash)]
pub struct Interval<A: Axis> {
    low: A,
    high: A,
}

impl<A: Axis> Model for Interval<A> {
    ghost use Rattle.std.specs.Prelude.{◌+◌, ◌-◌, ◌≤◌};
    ghost use Rattle.std.proofs.Common.{◌∙◌, add-sub_of_le, ap};
    ghost use Rattle.sel_region.specs.Interval.{Range, high_of, range_from};

    ghost Value = { Range };

    ghost view = { λ i. range_from (A.value i.low) (A.value i.high) };

    ghost invariant = { λ i.
        (A.value i.low ≤ A.value i.high) × (A.value i.high ≤ A.LAST) };

    ghost inverse = { λ r. record {
      low = A.from_value r.low;
      high = A.from_value (high_of r);
    } };

    ghost inverse_ok = { λ i ordered k. record {
      low = A.number_is i.low k;
      high = (ap A.from_value (add-sub_of_le ordered.0) ∙ A.number_is i.high) k;
    } };
}

impl<A: Axis> Clone for Interval<A> {
    ghost use Rattle.std.specs.Prelude.{◌≡◌, ⊤};

    ghost is_clone = { λ i copy. copy ≡ i };

    ghost is_infallible = { λ _. ⊤ };

    #[inline]
    fn clone(&self) -> Result<Self, AllocError> {
        Ok(*self)
    }
}

impl<A: Axis> Interval<A> {
    /// The interval from `low` up to `high`; `None` exactly where `low` is the greater or `high`
    /// is past the end of the axis.
    #[inline]
    pub fn new(low: u128, high: u128) -> Option<Self>
        ensures { result ≡ range_on A.LAST low high }
    {
        if low <= high && high <= A::LAST {
            Some(Interval::between(low, high))
        } else {
            None
        }
    }

    /// Its least number.
    #[inline]
    pub fn low_value(&self) -> u128
        ensures value { result ≡ self.now.low }
        ensures on_axis { result ≤ A.LAST }
    {
        self.low.value()
    }

    /// Its greatest number.
    #[inline]
    pub fn high_value(&self) -> u128
        ensures value { result ≡ high_of self.now }
        ensures on_axis { result ≤ A.LAST }
    {
        self.high.value()
    }

    #[inline]
    fn between(low: u128, high: u128) -> Self
        requires ordered { low ≤ high }
        requires on_axis { high ≤ A.LAST }
        ensures { result ≡ range_from low high }
    {
        Interval {
            low: A::from_value(low),
            high: A::from_value(high),
        }
    }
}

impl<A: Axis> Region for Interval<A> {
    ghost use Rattle.std.specs.Prelude.{nat_le};
    ghost use Rattle.sel_region.specs.Interval.{range_has, range_low, range_meet, range_minus};
    ghost use Rattle.sel_region.specs.Interval.{range_within};
    ghost use Rattle.sel_region.specs.laws.IntervalLaws.{range_laws};

    type Point = u128;

    ghost has = { range_has };

    ghost at_most = { nat_le };

    ghost low = { range_low };

    ghost meet = { range_meet };

    ghost within = { range_within };

    ghost minus = { range_minus };

    ghost laws = { range_laws };

    #[inline]
    fn has(&self, point: &u128) -> bool {
        // Both ends are always compared, here and below: that takes less time than a branch that is
        // guessed wrongly.
        (self.low_value() <= *point) & (*point <= self.high_value())
    }

    #[inline]
    fn meets(&self, other: &Self) -> bool {
        (self.low_value() <= other.high_value()) & (other.low_value() <= self.high_value())
    }

    #[inline]
    fn meet(&self, other: &Self) -> Option<Self> {
        let low = self.low_value().max(other.low_value());
        let high = self.high_value().min(other.high_value());
        if low <= high {
            Some(Interval::between(low, high))
        } else {
            None
        }
    }

    #[inline]
    fn within(&self, other: &Self) -> bool {
        (other.low_value() <= self.low_value()) & (self.high_value() <= other.high_value())
    }

    #[inline]
    fn low(&self) -> u128 {
        self.low_value()
    }

    #[inline]
    #[tactic(auto, unfolding(crate::specs::Interval::range_minus))]
    fn minus_in<F: Frame<Self>>(
        &self,
        other: &Self,
        frame: F,
        pieces: &mut Vec<F::Whole>,
    ) -> Result<(), NoMemory> {
        // Where a piece lies below the other, the other's low end isn't 0, and where one lies
        // above, its high end isn't the last number: neither step passes an end of the type.
        let (low, high) = (self.low_value(), self.high_value());
        let (below, above) = (other.low_value(), other.high_value());
        if low < below {
            pieces.push(frame.around(Interval::between(low, below - 1)))?;
        }
        if above < high {
            pieces.push(frame.around(Interval::between(above + 1, high)))?;
        }
        Ok(())
    }
}

impl<A: Axis> Hull for Interval<A> {
    ghost use Rattle.sel_region.specs.Interval.{range_hull};
    ghost use Rattle.sel_region.specs.laws.HullLaws.{range_hull_laws};

    ghost hull = { range_hull };

    ghost hull_laws = { range_hull_laws };

    #[inline]
    fn hull(&self, other: &Self) -> Self {
        let low = self.low_value().min(other.low_value());
        let high = self.high_value().max(other.high_value());
        Interval::between(low, high)
    }
}
