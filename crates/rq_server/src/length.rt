//! How long a log is.

/// Tells how long the log of a store is.
pub trait LogLength {
    /// In bytes. None where that cannot be told just now.
    fn bytes(&self) -> Option<u64>;
}
