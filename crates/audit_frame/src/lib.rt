//! What all commands of Jildravo share: the files that their words name, policies and limits, the
//! lines that they write, and what is promised of a run, whatever the command.
#![tactic(auto)]

pub use lists::NoMemory;
pub use loading::load_file;
pub use named_file::NamedFile;
pub use number_word::{MOST_LIMIT, read_count};
pub use policy_file::{MOST_POLICY, cut, load_policy};
pub use refusal::{Refusal, WriteRefused};
pub use writing::{PrintedLines, write_line, write_lines};

mod loading;
mod named_file;
mod number_word;
mod policy_file;
mod refusal;
mod writing;

/// How a command ends: by an answer of its own, or by a refusal that any command may have.
pub type Ended<A> = Result<A, Refusal>;
