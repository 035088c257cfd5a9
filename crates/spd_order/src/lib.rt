//! The ordered policy: lines by place and by name, and the edits that keep their order.
#![tactic(auto)]

pub use change::Change;
pub use edited::Edited;
pub use fault::{InsertRefused, OrderFault};
pub use spd::Spd;

mod change;
mod edited;
mod fault;
pub mod laws;
mod spd;
mod table;
