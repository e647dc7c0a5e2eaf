//! The generator by its definition, with codes for handles and no store: its calls as data, and the laws of the definition.
#![tactic(auto)]

pub mod call;
pub mod laws;
