//! What the bits of a number are, and finite index types, for the contracts of the crates above.
#![tactic(auto)]
