//! Pairs: two kinds of weight side by side are a kind again.
#![tactic(auto)]

pub mod pair;
