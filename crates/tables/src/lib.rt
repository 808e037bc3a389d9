//! A list of bounded length that lies in place, so that nothing is wanted of a heap.
#![tactic(auto)]

pub mod table;
