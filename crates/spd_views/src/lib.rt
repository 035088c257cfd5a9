//! The entries of a decorrelated policy as the three views of RFC 4301 section 4.4.1 list them, and
//! the text of an entry.
#![tactic(auto)]

pub use entry_text::print_entry;
pub use listing::{Listing, ListingList, View, list};
pub use lists::NoMemory;
pub use spd_text::{direction_word, print_judgement};

mod entry_text;
mod listing;
