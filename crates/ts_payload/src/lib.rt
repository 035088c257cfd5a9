//! Traffic selector payloads of IKEv2, read and written byte by byte (RFC 7296 section 3.13).
#![tactic(auto)]

pub use fault::TsFault;
pub use lists::NoMemory;
pub use reading::decode;
pub use sel_text::Family;
pub use selector::Ts;
pub use writing::encode;

mod fault;
pub mod laws;
mod number;
mod piece;
mod reading;
mod selector;
mod writing;

/// Bytes in order.
pub type Bytes = lists::List<u8>;

/// Traffic selectors in order.
pub type TsList = lists::List<Ts>;
