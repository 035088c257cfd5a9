//! The checker of certificates: whether one shows that two policies agree (RFC 4301 section 5).
#![tactic(auto)]

pub use answer::{CheckFault, Checked};
pub use checking::check;
pub use lists::NoMemory;
pub use rule::node_holds;

mod answer;
mod checking;
pub mod laws;
mod rule;
