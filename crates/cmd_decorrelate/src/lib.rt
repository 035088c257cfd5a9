//! The command `decorrelate LIMIT POLICY`: the policy as entries of which no two of a direction
//! have a point in common, in three views (RFC 4301 section 4.4.1 and Appendix B).
#![tactic(auto)]

pub use command::Decorrelate;

mod command;
pub mod laws;
mod view_lines;
