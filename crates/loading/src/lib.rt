//! Sheets read from entries.
#![tactic(auto)]

pub mod load;
