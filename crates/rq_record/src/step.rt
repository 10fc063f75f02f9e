//! What decoding answers.
use rq_model::record::Record;

/// What stands at the front of some bytes.
#[derive(Clone, Copy, PartialEq, Eq)]
pub enum Step {
    /// A record, and how many bytes it takes. Bytes may follow it.
    Record(Record, usize),
    /// A proper beginning of some record.
    Short,
    /// No record, nor the beginning of one.
    Bad,
}

/// The same, where the record was written over one that was lent.
#[derive(Clone, Copy, PartialEq, Eq)]
pub enum Decoded {
    /// A record, which takes so many bytes. Bytes may follow it.
    Record(usize),
    /// A proper beginning of some record.
    Short,
    /// No record, nor the beginning of one.
    Bad,
}
