//! What a sheet holds, and the questions that each addition has to pass.
#![tactic(auto)]

pub mod call;
pub mod fault;
