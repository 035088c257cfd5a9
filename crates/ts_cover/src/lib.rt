//! What a proposal of traffic selectors covers, as boxes of points (RFC 7296 section 2.9).
#![tactic(auto)]

pub use covering::Cover;
pub use cutting::cut_selectors;
pub use pairing::first_pair;
pub use sides::{can_write, has_number, local_side, remote_side};
pub use ts_span::{NoMemory, Ts, TsList, TsSpan};

mod covering;
mod cutting;
pub mod laws;
mod pairing;
mod sides;
