ghost use Rattle.std.specs.Prelude.{◌≡◌, IfOk};
ghost use Rattle.ts_narrow.specs.Narrowing as narrowing;

use crate::NoMemory;
use crate::meets::Meet;
use crate::searching::MeetTest;
use sel_box::{AnyBox, Region};
use std::alloc::Global;
use ts_cover::{Cover, can_write, has_number};

// The meet has a real point in some of the boxes.
#[derive(Clone, Copy)]
pub struct Reaching<'a> {
    pub cover: &'a Cover,
}

impl MeetTest for Reaching<'_> {
    ghost use Rattle.ts_cover.specs.RealParts.{reaches};

    ghost passes = { λ test meet. reaches test.cover.now meet.region };

    fn passes(&self, meet: &Meet) -> Result<bool, NoMemory> {
        Ok(self.cover.reaches(&meet.region))
    }
}

// The meet has a sayable real point in some of the boxes.
#[derive(Clone, Copy)]
pub struct Saying<'a> {
    pub cover: &'a Cover,
}

impl MeetTest for Saying<'_> {
    ghost use Rattle.ts_cover.specs.RealParts.{says};

    ghost passes = { λ test meet. says test.cover.now meet.region };

    fn passes(&self, meet: &Meet) -> Result<bool, NoMemory> {
        Ok(self.cover.says(&meet.region))
    }
}

// The meet is of a line, holds a box, and what it is cut to can be written without loss for the
// box.
#[derive(Clone, Copy)]
pub struct Serving<'a> {
    pub first: &'a AnyBox,
    pub link: u32,
}

impl MeetTest for Serving<'_> {
    ghost use Rattle.ts_narrow.specs.Narrowing.{serves};

    ghost passes = { λ test meet. serves test.first.now test.link meet };

    fn passes(&self, meet: &Meet) -> Result<bool, NoMemory> {
        Ok(
            meet.link == self.link
                && self.first.within(&meet.region)
                && (can_write(&meet.region) || has_number(self.first)),
        )
    }
}

// The meet has a real point in some of the boxes and outside a region.
#[derive(Clone, Copy)]
pub struct Missing<'a> {
    pub alloc: Global,
    pub cover: &'a Cover,
    pub region: AnyBox,
}

impl MeetTest for Missing<'_> {
    ghost use Rattle.ts_narrow.specs.Narrowing.{misses};

    ghost passes = { λ test meet. misses test.cover.now test.region meet };

    fn passes(&self, meet: &Meet) -> Result<bool, NoMemory> {
        let mut pieces = Vec::new(self.alloc);
        meet.region.minus(&self.region, &mut pieces)?;
        Ok(pieces.iter().any(|piece| self.cover.reaches(piece)))
    }
}
