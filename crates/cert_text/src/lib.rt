//! Certificates that two policies agree: the lines that write them, and which of them are valid.
#![tactic(auto)]

pub use lists::NoMemory;
pub use node::Node;
pub use printing::print_node;
pub use reading::read_node;
pub use sel_box::{AnyBox, AxisName, Family};
pub use splitting::split;

pub mod laws;
mod node;
mod printing;
mod reading;
mod splitting;
