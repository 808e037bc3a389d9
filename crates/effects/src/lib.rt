//! What a run does to sixteen facts, and the values that keep the rule.
#![tactic(auto)]

pub mod known;
