//! The list that all crates use, and the one error of a call that found no memory.
#![tactic(auto)]

pub use list::List;
pub use memory::NoMemory;

mod list;
mod memory;
