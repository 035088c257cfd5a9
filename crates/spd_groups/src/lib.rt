//! The groups that a policy has under its keys: how one is found, and that a cache of such groups
//! answers as the policy does.
#![tactic(auto)]

pub use lists::NoMemory;
pub use looking::{Looked, look};

pub mod laws;
mod looking;
