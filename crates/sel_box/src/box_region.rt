ghost use Rattle.std.specs.Prelude.{◌≡◌};
ghost use Rattle.sel_box.specs.Boxes.{values_of};

use crate::any_box::{AnyBox, AxisName, Box4, Box6};
use crate::point::Point;
use lists::NoMemory;
use sel_region::{Frame, Region};
use sel_text::Family;

impl Region for AnyBox {
    ghost use Rattle.sel_box.specs.Boxes.{box_has};
    ghost use Rattle.sel_box.specs.BoxRegion.{box_at_most, box_low, box_meet, box_within};
    ghost use Rattle.sel_box.specs.BoxRegion.{box_minus};
    ghost use Rattle.sel_box.specs.laws.BoxLaws.{box_laws};

    type Point = Point;

    ghost has = { box_has };

    ghost at_most = { box_at_most };

    ghost low = { box_low };

    ghost meet = { box_meet };

    ghost within = { box_within };

    ghost minus = { box_minus };

    ghost laws = { box_laws };

    #[inline]
    fn has(&self, point: &Point) -> bool {
        match (self, point.family()) {
            (AnyBox::Four(ranges), Family::Four) => ranges.has(&values(point)),
            (AnyBox::Six(ranges), Family::Six) => ranges.has(&values(point)),
            _ => false,
        }
    }

    #[inline]
    fn meets(&self, other: &Self) -> bool {
        match (self, other) {
            (AnyBox::Four(ranges), AnyBox::Four(others)) => ranges.meets(others),
            (AnyBox::Six(ranges), AnyBox::Six(others)) => ranges.meets(others),
            _ => false,
        }
    }

    #[inline]
    fn meet(&self, other: &Self) -> Option<Self> {
        match (self, other) {
            (AnyBox::Four(ranges), AnyBox::Four(others)) => Some(AnyBox::Four(ranges.meet(
                others,
            )?)),
            (AnyBox::Six(ranges), AnyBox::Six(others)) => Some(AnyBox::Six(ranges.meet(others)?)),
            _ => None,
        }
    }

    #[inline]
    fn within(&self, other: &Self) -> bool {
        match (self, other) {
            (AnyBox::Four(ranges), AnyBox::Four(others)) => ranges.within(others),
            (AnyBox::Six(ranges), AnyBox::Six(others)) => ranges.within(others),
            _ => false,
        }
    }

    #[inline]
    fn low(&self) -> Point {
        let point = Point::new(
            self.family(),
            self.low_of(AxisName::Local),
            self.low_of(AxisName::Remote),
            self.low_of(AxisName::Protocol) as u16,
            self.low_of(AxisName::LocalField) as u32,
            self.low_of(AxisName::RemoteField) as u32,
        );
        point.unwrap()
    }

    #[inline]
    fn minus_in<F: Frame<Self>>(
        &self,
        other: &Self,
        frame: F,
        pieces: &mut Vec<F::Whole>,
    ) -> Result<(), NoMemory> {
        match (self, other) {
            (AnyBox::Four(ranges), AnyBox::Four(others)) => {
                ranges.minus_in(others, InBox { frame }, pieces)
            }
            (AnyBox::Six(ranges), AnyBox::Six(others)) => {
                ranges.minus_in(others, InBox { frame }, pieces)
            }
            // Boxes of two families don't meet.
            _ => unreachable!(),
        }
    }
}

// The values of the point, in the order of the axes.
#[inline]
fn values(point: &Point) -> (u128, (u128, (u128, (u128, u128))))
    ensures { result ≡ values_of point.now }
{
    let fields = (
        u128::from(point.local_field()),
        u128::from(point.remote_field()),
    );
    (
        point.local(),
        (point.remote(), (u128::from(point.protocol()), fields)),
    )
}

/// The frame of the ranges of a box: the box of them, in the box's own frame.
#[derive(Clone, Copy)]
struct InBox<F> {
    frame: F,
}

impl<F: Frame<AnyBox>> Frame<Box4> for InBox<F> {
    ghost use Rattle.sel_text.specs.declared.family.Family.TheVariants.{Four};
    ghost use Rattle.sel_box.specs.Boxes.{box_from};

    type Whole = F::Whole;

    ghost around = { λ inside ranges. F.around inside.frame (box_from Four ranges) };

    #[inline]
    fn around(&self, ranges: Box4) -> F::Whole {
        self.frame.around(AnyBox::Four(ranges))
    }
}

impl<F: Frame<AnyBox>> Frame<Box6> for InBox<F> {
    ghost use Rattle.sel_text.specs.declared.family.Family.TheVariants.{Six};
    ghost use Rattle.sel_box.specs.Boxes.{box_from};

    type Whole = F::Whole;

    ghost around = { λ inside ranges. F.around inside.frame (box_from Six ranges) };

    #[inline]
    fn around(&self, ranges: Box6) -> F::Whole {
        self.frame.around(AnyBox::Six(ranges))
    }
}
