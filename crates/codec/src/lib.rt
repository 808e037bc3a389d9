//! Weights as entries: a byte of kind, then a body whose length the kind fixes.
#![tactic(auto)]

pub mod coded;
pub mod entry;
pub mod pair;
pub mod square;
