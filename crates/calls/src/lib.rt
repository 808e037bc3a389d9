//! Calls: made on a draft, and read from entries.
#![tactic(auto)]

pub mod kind;
pub mod make;
pub mod read;
