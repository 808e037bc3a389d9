//! Squares: two rows and two columns of a kind of weight are a kind again.
#![tactic(auto)]

pub mod square;
