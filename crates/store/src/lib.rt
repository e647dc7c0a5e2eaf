//! Stores of code: their one meaning, the ledger, the sharing layer over any store, and requests in turn.
#![tactic(auto)]

pub mod ledger;
pub mod meaning;
pub mod memory;
pub mod row;
pub mod search;
pub mod sequence;
pub mod sharing;
#[cfg(test)]
mod tests;
