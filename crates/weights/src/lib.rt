//! Weights: the interface that every kind of weight keeps.
#![tactic(auto)]

pub mod weight;
