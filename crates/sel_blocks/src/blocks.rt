ghost use Rattle.std.specs.Prelude.{◌≡◌, ◌++◌, ◌∷◌, ◌==◌, [], OnErr, OnOk, length, nat_lt};
ghost use Rattle.std.specs.Prelude.{◌<◌, ◌≤◌, ℕ, drop, take, vec_len};
ghost use Rattle.sel_region.specs.Cutting.{cut_each};
ghost use Rattle.sel_blocks.specs.Joined.{joined};

use crate::block::Block;
use lists::NoMemory;
use sel_region::Hull;
use std::alloc::Global;
use std::marker::Model;

// How many regions a block takes one by one. After a cut it may have twice as many, before it is
// parted in two.
const ROOM: usize = 64;

/// A list of regions in blocks of some 64 to 128, each with a hull. A contract sees the list.
///
/// What doesn't meet a hull passes over its block by one test. That is worth it where regions near
/// one another in the list are near one another in space: pieces of a region, or products in order.
#[derive(Drop)]
pub struct Blocks<R: Hull> {
    blocks: Vec<Block<R>>,
}

impl<R: Hull> Model for Blocks<R> {
    ghost use Rattle.std.specs.Prelude.{List};
    ghost use Rattle.sel_blocks.specs.Joined.{joined};

    ghost Value = { List R };

    ghost view = { λ b. joined b.blocks.items };
}

impl<R: Hull> Blocks<R> {
    /// The empty list. Takes no memory.
    pub fn new(alloc: Global) -> Self
        ensures { result ≡ [] }
    {
        Blocks {
            blocks: Vec::new(alloc),
        }
    }

    /// The blocks, in order: their regions one after another are those of the list.
    pub fn blocks(&self) -> &[Block<R>]
        ensures { joined result.now ≡ self.now }
    {
        self.blocks.as_slice()
    }

    /// Whether there is no region. Takes time by the number of blocks at most.
    pub fn is_empty(&self) -> bool
        ensures { result ≡ (length self.now == 0) }
    {
        !self.are_more_than(0)
    }

    /// Whether there are more regions than this many. Takes time by the number of blocks at most.
    pub fn are_more_than(&self, most: usize) -> bool
        ensures { result ≡ nat_lt most (length self.now) }
    {
        let mut room = most;
        for block in &self.blocks {
            let len = block.len();
            if len > room {
                return true;
            }
            room -= len;
        }
        false
    }

    /// Takes all regions out.
    pub fn clear(&mut self)
        ensures { self.new ≡ [] }
    {
        self.blocks.clear();
    }

    /// Puts a region at the end, in constant time over many calls. Where there is no memory, the
    /// list is unchanged.
    pub fn push(&mut self, region: R) -> Result<(), NoMemory>
        ensures ok { OnOk result (self.new ≡ self.old ++ region ∷ []) }
        ensures err { OnErr result (self.new ≡ self.old) }
    {
        let count = self.blocks.len();
        if count > 0 && self.blocks[count - 1].len() < ROOM {
            return self.blocks[count - 1].push(region);
        }
        let alloc = *self.blocks.allocator();
        self.blocks.push(Block::of_one(alloc, region)?)?;
        Ok(())
    }

    /// Leaves of each region what is left of it without another, in the order of the regions.
    ///
    /// The regions of a block whose hull doesn't meet the other stay where they are. So this takes
    /// time by the number of blocks, and by the regions of the blocks that may meet the other.
    /// `spare` serves as in `cut_each`. Where there is no memory, some first regions are cut, and
    /// the others stay as they are.
    pub fn cut(&mut self, other: &R, spare: &mut Vec<R>) -> Result<(), NoMemory>
        ensures ok { OnOk result (self.new ≡ cut_each R.minus self.old other.now) }
        ensures err { OnErr result ((count : ℕ) × (self.new
            ≡ cut_each R.minus (take count self.old) other.now ++ drop count self.old)) }
    {
        let uneven = cut_blocks(&mut self.blocks, other, spare)?;
        if uneven {
            // Without memory to part them, blocks stay as they are.
            let _ = arrange(&mut self.blocks);
        }
        Ok(())
    }
}

// Cuts each block, and answers whether some block has outgrown its room or has nothing left.
fn cut_blocks<R: Hull>(
    blocks: &mut Vec<Block<R>>,
    other: &R,
    spare: &mut Vec<R>,
) -> Result<bool, NoMemory>
    ensures ok { OnOk result (joined blocks.new.items
        ≡ cut_each R.minus (joined blocks.old.items) other.now) }
    ensures err { OnErr result ((count : ℕ) × (joined blocks.new.items
        ≡ cut_each R.minus (take count (joined blocks.old.items)) other.now
        ++ drop count (joined blocks.old.items))) }
{
    let mut uneven = false;
    for block in blocks.iter_mut() {
        block.cut(other, spare)?;
        uneven |= block.is_empty() | is_outgrown(block);
    }
    Ok(uneven)
}

// Whether there are too many regions for one block.
fn is_outgrown<R: Hull>(block: &Block<R>) -> bool {
    block.len() > 2 * ROOM
}

// Parts each block that has outgrown its room, and drops each that has nothing left.
fn arrange<R: Hull>(blocks: &mut Vec<Block<R>>) -> Result<(), NoMemory>
    ensures { joined blocks.new.items ≡ joined blocks.old.items }
{
    let mut at = blocks.len();
    while at > 0 {
        at -= 1;
        arrange_at(blocks, at)?;
    }
    Ok(())
}

// Does the same for the block at an index; those before it stay.
fn arrange_at<R: Hull>(blocks: &mut Vec<Block<R>>, at: usize) -> Result<(), NoMemory>
    requires { at < vec_len blocks.old }
    ensures same { joined blocks.new.items ≡ joined blocks.old.items }
    ensures before { at ≤ vec_len blocks.new }
{
    if blocks[at].is_empty() {
        let _empty = blocks.remove(at);
    } else if is_outgrown(&blocks[at]) {
        part(blocks, at)?;
    }
    Ok(())
}

// Parts a block in two.
fn part<R: Hull>(blocks: &mut Vec<Block<R>>, at: usize) -> Result<(), NoMemory>
    requires { at < vec_len blocks.old }
    ensures same { joined blocks.new.items ≡ joined blocks.old.items }
    ensures before { at ≤ vec_len blocks.new }
{
    let half = blocks[at].len() / 2;
    let rest = blocks[at].after(half)?;
    blocks.insert(at + 1, rest)?;
    blocks[at].truncate(half);
    Ok(())
}
