//! The generator: cells, open binders and marks over any store of code, and the printer.
#![tactic(auto)]

pub mod answer;
pub mod binder;
pub mod binding;
pub mod calls;
pub mod cell;
pub mod fault;
pub mod generator;
pub mod marking;
pub mod performing;
pub mod plan;
pub mod planning;
pub mod printing;
pub mod reading;
mod slot;
pub mod table;
