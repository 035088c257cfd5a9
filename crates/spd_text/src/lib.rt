//! The printed words of packets, policies and verdicts, each at the end of a text.
#![tactic(auto)]

pub use direction_text::direction_word;
pub use judgement_text::print_judgement;
pub use lists::NoMemory;
pub use printed::Printed;
pub use range_text::{print_range, print_value};

mod direction_text;
mod judgement_text;
mod packet_text;
mod printed;
mod range_text;
