//! What a responder may narrow a proposal of traffic selectors to (RFC 7296 section 2.9).
#![tactic(auto)]

pub use lists::NoMemory;
pub use narrowed::Narrowed;
pub use narrowing::narrow;
pub use ts_wire::{Proposal, Ts, TsList};

mod choice;
mod choosing;
mod inbound;
pub mod laws;
mod leaving;
mod line_meets;
mod meets;
mod narrowed;
mod narrowing;
mod searching;
mod trying;
