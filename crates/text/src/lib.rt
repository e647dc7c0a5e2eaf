//! Text: bytes laid over a lent output, and the text of a code in a store.
#![tactic(auto)]

mod around;
mod block;
pub mod page;
pub mod printer;
mod spelling;
