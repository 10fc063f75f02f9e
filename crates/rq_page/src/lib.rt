//! Pages: a header with an LSN, and fifteen slots that hold the cells, the directory and the tags of a store.
#![tactic(auto)]

pub mod addr;
pub mod cell;
pub mod check;
pub mod client;
pub mod directory;
pub mod formatted;
pub mod layout;
mod numbers;
pub mod page;
