//! Sheets written as entries.
#![tactic(auto)]

mod calls_of;
pub mod store;
