//! The lines of a trace, read one by one as events.
#![tactic(auto)]

pub use event::{Event, Found};
pub use fault::EventFault;
pub use line::next_event;

mod event;
mod fault;
mod field;
mod keyword;
pub mod laws;
mod line;
mod reading;
mod spaces;
mod word;
mod words;
mod written;
