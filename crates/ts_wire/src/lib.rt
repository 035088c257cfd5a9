//! Traffic selector payloads and proposals of IKEv2 (RFC 7296 sections 2.9 and 3.13).
#![tactic(auto)]

pub use fault::ProposalFault;
pub use proposal::{Proposal, read_proposal};
pub use ts_payload::{Bytes, Family, NoMemory, Ts, TsFault, TsList, decode, encode};
pub use ts_span::{TsSpan, span, spell};

mod fault;
pub mod laws;
mod lines;
mod proposal;
