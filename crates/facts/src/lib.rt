//! Facts: which of sixteen facts a run makes and unmakes.
#![tactic(auto)]

pub mod entry;
pub mod weight;
