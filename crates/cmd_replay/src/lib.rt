//! The command `replay LIMIT CACHE POLICY TRACE`: the events of a trace on the shared machine of a
//! policy, a cache and lanes.
#![tactic(auto)]

pub use command::{Replay, ReplayEnd};
pub use fault::TraceFault;
pub use reply::EventReply;

mod command;
mod compiling;
mod event;
mod fault;
pub mod laws;
mod reply;
mod stop;
mod tracing;
