//! The reader over the input of entries, what can be wrong with an entry, and bytes into a lent buffer.
#![tactic(auto)]

pub mod fault;
pub mod put;
pub mod reader;
