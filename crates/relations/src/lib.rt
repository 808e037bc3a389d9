//! Weights that are relations over eight flags.
#![tactic(auto)]

pub mod entry;
pub mod weight;
