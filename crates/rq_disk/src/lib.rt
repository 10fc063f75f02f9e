//! A device of pages and a device of a log: what they promise, two in memory, and two in files.
#![tactic(auto)]

mod choice;
mod contents;
mod device;
mod file_log;
mod file_pages;
mod framing;
pub mod laws;
mod mem_log;
mod mem_pages;
mod noted;
mod replay;
mod storage;
mod switch;

pub use choice::PageChoice;
pub use contents::{FileContents, Unknown};
pub use device::{DeviceFailed, LogDevice, PAGE, PageDevice};
pub use file_log::FileLog;
pub use file_pages::FilePages;
pub use framing::records_in;
pub use mem_log::MemLog;
pub use mem_pages::MemPages;
pub use noted::Calls;
pub use storage::{Exchange, Fixed, NotedFile, Storage};
pub use switch::{CallKind, Mishap, Switch};
