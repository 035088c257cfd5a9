//! Finding the first box of a list that meets another, without a look at each.
#![tactic(auto)]

pub use box_tree::BoxTree;
pub use lists::NoMemory;

mod box_tree;
mod build;
mod check;
pub mod laws;
mod search;
mod trees;
