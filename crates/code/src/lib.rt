//! The vocabulary of generated code: operators, types, constructs over handles, and the laws of what they mean.
#![tactic(auto)]

pub mod construct;
pub mod laws;
pub mod names;
pub mod operator;
pub mod refusal;
pub mod types;
