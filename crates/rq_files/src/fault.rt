//! Why a store's files could not be had.
use rq_model::refusal::Refusal;
use std::io;
use thiserror::Error;

/// Why a store's files could not be made.
#[derive(Clone, Copy, Debug, PartialEq, Eq, Error)]
pub enum Fault {
    /// A file of a store is there already.
    #[error("exists")]
    Exists,
    /// A file or the folder cannot be had.
    #[error("open")]
    Open,
    /// The store was refused.
    #[error("{number} {name}", number = .0.number(), name = .0.name())]
    Refused(Refusal),
}

/// Why the files of a store were not opened: the fault, and what the system said.
#[derive(Drop)]
pub struct NotOpened {
    pub fault: Fault,
    pub error: io::Error,
}
