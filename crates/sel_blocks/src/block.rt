ghost use Rattle.std.specs.Prelude.{◌≡◌, ◌≤◌, ◌++◌, ◌∷◌, ◌==◌, [], All, IfOk, IsNone, OnErr, OnOk};
ghost use Rattle.std.specs.Prelude.{drop, length, take, true};
ghost use Rattle.std.specs.Bool.{OnFalse};
ghost use Rattle.sel_region.specs.Cutting.{cut_each};

use lists::NoMemory;
use sel_region::{Hull, cut_each};
use std::alloc::Global;
use std::marker::Model;

/// Some regions, and their hull: a region that all of them are within. A contract sees the list of
/// the regions.
#[derive(Drop)]
pub struct Block<R: Hull> {
    hull: R,
    items: Vec<R>,
}

impl<R: Hull> Model for Block<R> {
    ghost use Rattle.std.specs.Prelude.{◌≡◌, All, List, true};

    ghost Value = { List R };

    ghost view = { λ b. b.items.items };

    ghost invariant = { λ b. All (λ r. R.within r b.hull ≡ true) b.items.items };
}

impl<R: Hull> Block<R> {
    /// The block of one region.
    pub fn of_one(alloc: Global, region: R) -> Result<Self, NoMemory>
        ensures { IfOk result (λ block. block ≡ region ∷ []) }
    {
        let mut items = Vec::new(alloc);
        items.push(region)?;
        let hull = region;
        Ok(Block { hull, items })
    }

    /// How many regions there are.
    pub fn len(&self) -> usize
        ensures { result ≡ length self.now }
    {
        self.items.len()
    }

    /// Whether there is no region.
    pub fn is_empty(&self) -> bool
        ensures { result ≡ (length self.now == 0) }
    {
        self.items.is_empty()
    }

    /// The regions, in order.
    pub fn as_slice(&self) -> &[R]
        ensures { result.now ≡ self.now }
    {
        self.items.as_slice()
    }

    /// Whether the hull meets the other region. Where it doesn't, no region of the block does.
    /// Takes the time of one test.
    #[inline]
    pub fn may_meet(&self, other: &R) -> bool
        ensures { OnFalse result (All (λ r. IsNone (R.meet r other.now)) self.now) }
    {
        self.hull.meets(other)
    }

    /// Puts a region at the end, in constant time over many calls. Where there is no memory, the
    /// block is unchanged.
    pub fn push(&mut self, region: R) -> Result<(), NoMemory>
        ensures ok { OnOk result (self.new ≡ self.old ++ region ∷ []) }
        ensures err { OnErr result (self.new ≡ self.old) }
    {
        self.items.push(region)?;
        self.hull = self.hull.hull(&region);
        Ok(())
    }

    /// Leaves of each region what is left of it without another, in the order of the regions. Where
    /// the hull doesn't meet the other, this takes the time of that test. `spare` serves as in
    /// `cut_each`. Where there is no memory, the block is unchanged.
    pub fn cut(&mut self, other: &R, spare: &mut Vec<R>) -> Result<(), NoMemory>
        ensures ok { OnOk result (self.new ≡ cut_each R.minus self.old other.now) }
        ensures err { OnErr result (self.new ≡ self.old) }
    {
        if self.may_meet(other) {
            cut_each(&mut self.items, other, spare)?;
            self.hull = hull_of(&self.items, self.hull);
        }
        Ok(())
    }

    /// The regions from an index on, in a block of their own, with a hull of their own.
    pub fn after(&self, first: usize) -> Result<Self, NoMemory>
        requires { first ≤ length self.now }
        ensures { IfOk result (λ block. block ≡ drop first self.now) }
    {
        let mut items = Vec::new(*self.items.allocator());
        items.extend_from_slice(&self.items[first..])?;
        let hull = hull_of(&items, self.hull);
        Ok(Block { hull, items })
    }

    /// Keeps so many regions, the first ones, with a hull of their own; a shorter block stays as it
    /// is.
    pub fn truncate(&mut self, len: usize)
        ensures { self.new ≡ take len self.old }
    {
        self.items.truncate(len);
        self.hull = hull_of(&self.items, self.hull);
    }
}

// A region that all these are within, their least one; where there are none, the other region.
fn hull_of<R: Hull>(regions: &[R], otherwise: R) -> R
    ensures { All (λ r. R.within r result ≡ true) regions.now }
{
    let mut hull = otherwise;
    if let Some(first) = regions.first() {
        hull = *first;
    }
    for region in regions {
        hull = hull.hull(region);
    }
    hull
}
