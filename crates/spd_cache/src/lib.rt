//! The cache of a policy (RFC 4301 section 4.4.2): groups of boxes under keys, the least recently
//! used one dropped where there are too many.
#![tactic(auto)]

pub use cache::{Cache, KeepRefused, MOST_GROUPS};
pub use key::Key;
pub use lists::NoMemory;

mod cache;
mod hints;
mod hulled;
mod hulls;
mod key;
pub mod laws;
mod look;
