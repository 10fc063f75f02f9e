//! A store in a folder: a file of its pages and a file of its log.
#![tactic(auto)]

mod fault;
mod folder;
mod looking;
mod measuring;
mod renaming;

pub use fault::{Fault, NotOpened};
pub use folder::{format_folder, open_folder, run_format};
pub use looking::{ReadFile, look_at_layout, look_at_log};
pub use measuring::Measures;
pub use renaming::{FolderLog, InFolder, LogPaths, Renames};
