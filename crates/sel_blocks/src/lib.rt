//! Lists of regions that stand in blocks, each with a hull, so that a region that doesn't meet a
//! hull passes over the whole block by one test.
#![tactic(auto)]

pub use block::Block;
pub use blocks::Blocks;
pub use lists::NoMemory;

mod block;
mod blocks;
