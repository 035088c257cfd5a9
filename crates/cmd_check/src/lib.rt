//! The command `check MOST POLICY_A POLICY_B CERT`: whether a certificate shows that two policies
//! agree (RFC 4301 section 5).
#![tactic(auto)]

pub use command::{Check, CheckEnd};

mod command;
mod found_line;
pub mod laws;
mod most_bytes;
