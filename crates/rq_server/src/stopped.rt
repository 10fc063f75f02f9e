//! Why a server did not come to its end.
use rq_model::refusal::Refusal;
use std::io::Error;

/// Why a server did not start, or did not come to its end.
#[derive(Drop)]
pub enum Stopped {
    /// The system had no thread for it, no place to wait, or no memory.
    NotStarted,
    /// Where it listens could not be told or printed.
    NotTold(Error),
    /// The system reported nothing to a worker any more. Standard error says why.
    Deaf,
    /// It was to end with standard input, and the system can't tell when that ends.
    NoInput,
    /// The store refused the last force.
    NotForced(Refusal),
}
