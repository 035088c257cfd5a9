//! Where the programs above read their files and write their text.
//!
//! `Files` and `Sink` say what may be known of reading and writing: contents where they are told,
//! and counts of faults in any case. Code above is generic over both, and proved once for files and
//! sinks in memory, which tell their contents, and for those of the machine, which do not.
#![tactic(auto)]

pub use failed::Failed;
pub use files::Files;
pub use lists::NoMemory;
pub use loading::{LoadFault, load};
pub use mem_files::{FileList, MemFile, MemFiles};
pub use mem_sink::MemSink;
pub use real_files::RealFiles;
pub use real_sink::RealSink;
pub use sink::Sink;
pub use text::{Text, WordList};
pub use writing::write_all;

mod counts;
mod failed;
mod files;
mod loading;
mod mem_files;
mod mem_sink;
mod opened_file;
mod opened_files;
mod real_files;
mod real_sink;
mod sink;
#[cfg(test)]
mod tests;
mod text;
mod way;
mod writing;

/// Bytes, as a file holds them. A contract sees the list of the bytes.
pub type Bytes = lists::List<u8>;

/// Numbers of calls, from 1. A contract sees the list of the numbers.
pub type NumberList = lists::List<u64>;
