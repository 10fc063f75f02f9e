//! What a store is at most.

/// Transactions that have not ended.
pub const TRANSACTION_LIMIT: usize = 4096;

/// Records of a log.
pub const LOG_LIMIT: u64 = 1 << 50;
