//! The command `judge POLICY TRACE`: the verdict of each packet of a trace by the ordered policy.
#![tactic(auto)]

pub use command::{Judge, JudgeEnd, TraceFault};

mod command;
pub mod laws;
mod policy;
mod tracing;
mod verdict_line;
