//! Lengths: what the shortest run costs.
#![tactic(auto)]

pub mod entry;
pub mod weight;
