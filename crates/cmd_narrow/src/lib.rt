//! The command `narrow LIMIT POLICY PROPOSAL`: what a responder accepts of a proposal of traffic
//! selectors (RFC 7296 section 2.9).
#![tactic(auto)]

pub use command::{Narrow, NarrowEnd};

mod answer_lines;
mod answering;
mod command;
pub mod laws;
