//! The command `audit LIMIT POLICY_A POLICY_B`: whether one gateway judges each packet that comes
//! in as the other does when it goes out, and else the least packet that they judge differently
//! (RFC 4301 section 5).
#![tactic(auto)]

pub use command::{Audit, AuditEnd};

mod answer_lines;
mod command;
pub mod laws;
mod writing;
