//! The policy file: a TOML document of lines, and the reader that gives its lines or its first
//! fault.
#![tactic(auto)]

pub use fault::PolicyFault;
pub use key::{LineKey, TopKey};
pub use line::read_line;
pub use lists::NoMemory;
pub use policy::read_policy;
pub use why::Why;

mod fault;
mod fault_text;
mod flags;
mod items;
mod key;
pub mod laws;
mod line;
mod line_table;
mod policy;
mod table;
mod value;
mod why;
mod word;
