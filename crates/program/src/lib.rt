//! The work of the program `weigh-length`: from the bytes of its input to the sheet that they spell.
#![tactic(auto)]

pub mod loaded;
pub mod refusal;
pub mod run;
