//! Taking the overlaps out of a policy (RFC 4301 Appendix B): entries that have no point in common
//! and together answer as the ordered lines do.
#![tactic(auto)]

pub use decorrelation::decorrelate;
pub use entry::{Entry, EntryList};
pub use fault::CutFault;
pub use grouping::group;
pub use lists::NoMemory;

mod cut;
mod cutter;
mod decorrelation;
mod entry;
mod family_cutter;
mod fault;
pub mod group_laws;
mod grouping;
pub mod laws;
