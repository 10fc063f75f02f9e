//! Opening a store: going through its log. And formatting a new one.
#![tactic(auto)]

mod aborting;
mod again;
mod analysis;
mod appending;
pub mod format;
pub mod laws;
mod page_numbers;
pub mod places;
mod redo;
pub mod restart;
mod rolling_back;
mod tables;
mod undoing;
