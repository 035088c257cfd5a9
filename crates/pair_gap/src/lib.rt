//! Where two gateways differ: the least packet that one judges otherwise when it goes out than the
//! other when it comes in, and all regions of such packets (RFC 4301 section 5).
#![tactic(auto)]

pub use gap::{Gap, least_gap};
pub use lists::NoMemory;
pub use peer::PeerEntries;
pub use regions::gaps;

mod gap;
pub mod laws;
mod pairs;
mod peer;
mod regions;
mod runs;
