//! The first line of a point, found by rows of bits in place of a look at each line.
#![tactic(auto)]

pub use index::Index;
pub use lists::NoMemory;

mod bits;
mod cuts;
mod ends;
mod index;
mod rows;
mod sides;
mod tries;
