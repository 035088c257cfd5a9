//! Sets of selector values as products of intervals, one interval for each selector: the points
//! that two such sets have in common, and the pieces without a common point that are left of one,
//! or of a list of them, without others. Taking the overlaps out of a policy (RFC 4301 Appendix B)
//! rests on those pieces.
#![tactic(auto)]

pub use axis::{Axis, Field, Proto, V4, V6};
pub use cutting::{cut_all, cut_each};
pub use hull::Hull;
pub use interval::Interval;
pub use lists::NoMemory;
pub use pair::Pair;
pub use region::{Frame, Region};

mod axis;
mod cutting;
mod hull;
mod interval;
pub mod laws;
mod pair;
mod region;
#[cfg(test)]
mod tests;
