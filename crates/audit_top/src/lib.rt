//! The commands of Jildravo over any files and sinks: from the words of a command to the bytes that
//! it writes and the outcome that it ends with.
#![tactic(auto)]

pub use outcome::{Outcome, status};
pub use running::{report, run};
pub use trace_fault::TraceFault;

mod command;
mod error_line;
mod outcome;
mod running;
mod trace_fault;
