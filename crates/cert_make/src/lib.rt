//! The maker of certificates: it writes the trees that show that two policies agree (RFC 4301
//! section 5).
#![tactic(auto)]

pub use agreeing::agree;
pub use fault::MakeFault;
pub use lists::NoMemory;
pub use writing::make;

mod agreeing;
mod fault;
pub mod laws;
mod placed;
mod rule;
mod starts;
mod writing;
