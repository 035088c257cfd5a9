//! What traffic selectors of IKEv2 select, and how that is written as selectors (RFC 7296 section
//! 3.13.1).
#![tactic(auto)]

pub use spanning::{TsSpan, span};
pub use spelling::spell;
pub use ts_payload::{NoMemory, Ts, TsList};

pub mod laws;
mod spanning;
mod spelling;
mod table;
