//! Runs over files and sinks in memory of which a call fails: what has been written by then, and how
//! each ends; and the machine that a replay keeps.
#![tactic(auto)]

#[cfg(test)]
mod tests;
