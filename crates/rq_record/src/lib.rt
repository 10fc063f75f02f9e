//! Records of the log as bytes.
#![tactic(auto)]

mod deed;
mod laws;
mod reading;
mod step;
mod writing;

pub use deed::{
    decode_deed, decode_mark, decode_told, spell_append, spell_close, spell_mark, spell_unlink_head,
};
pub use laws::{deeds_are_told, framed, lengths, one_deed, one_spelling};
pub use reading::{decode, decode_into};
pub use rq_model::record::{Deed, Record};
pub use step::{Decoded, Step};
pub use writing::{
    base_bytes, encode, put_comp_end, put_op_end, put_page_op, shows_fits, shows_size, spelled_len,
};

/// The bytes of a PageOp record.
pub const PAGE_OP_BYTES: usize = 546;

/// The bytes of an OpEnd record without those of its deed.
pub const OP_END_BYTES: usize = 30;

/// The bytes of a CompEnd record.
pub const COMP_END_BYTES: usize = 37;

/// The bytes of a Commit record.
pub const COMMIT_BYTES: usize = 21;
