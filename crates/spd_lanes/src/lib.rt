//! A policy compiled into its entries, and the machine of lanes that answers packets from a cache
//! of it while edits fall between the steps of a lookup (RFC 4301 sections 4.4.1, 4.4.2 and 5).
#![tactic(auto)]

pub use compiled::Compiled;
pub use edit::Edit;
pub use fault::{CompileFault, EditFault, LaneFault};
pub use lane::{Filled, LaneState, PacketAnswer};
pub use shared::Shared;
pub use steps::{ask, fill, search, take};

mod compiled;
mod cut;
mod edit;
mod fault;
mod lane;
pub mod laws;
mod shared;
mod steps;
