//! Scripts: the steps that their bytes spell.
#![tactic(auto)]

pub mod cursor;
pub mod fault;
#[cfg(test)]
mod handing;
mod kind;
pub mod laws;
pub mod playing;
pub mod report;
pub mod step;
#[cfg(test)]
mod tests;
