//! Finding the box that has a point, and a count of the steps that it takes.
#![tactic(auto)]

pub use finder::Finder;
pub use indexed::Indexed;
pub use lists::NoMemory;
pub use plain::Plain;
pub use steps::Steps;
pub use uncounted::find_uncounted;

mod finder;
mod indexed;
pub mod laws;
mod plain;
mod steps;
mod uncounted;
