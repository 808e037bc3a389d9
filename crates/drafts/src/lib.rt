//! Drafts: sheets that are being written.
#![tactic(auto)]

pub mod draft;
