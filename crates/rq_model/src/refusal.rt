//! Refusals, by number and name.
ghost use Rattle.std.specs.Prelude.{◌≡◌};

use std::fmt;
use thiserror::Error;

/// Where a damaged byte was met, or a slot that does not hold what an operation needs.
#[derive(Clone, Copy, Debug, PartialEq, Eq)]
pub enum Damage {
    /// A page, by its number.
    Page(u32),
    /// A record of the log, by its LSN.
    Record(u64),
}

/// A growth of memory was refused.
#[derive(Clone, Copy, Debug, PartialEq, Eq, Error)]
#[error("NoMemory")]
pub struct NoMemory;

/// Why a call was refused. A refusal leaves the state as it was, except `DiskWrite`, after which every
/// call answers `Failed` until the store is opened again.
#[derive(Clone, Copy, Debug, PartialEq, Eq)]
pub enum Refusal {
    /// 1: a growth of memory was refused in this call.
    NoMemory,
    /// 2: an earlier call answered `DiskWrite`, the store was migrated, or it is not open.
    Failed,
    /// 3: a device read failed in this call.
    DiskRead,
    /// 4: the number names no transaction that has not ended.
    UnknownTransaction,
    /// 5: the transaction is aborting where the call needs it open, or open where the call needs it aborting.
    NotOpen,
    /// 6: an operation is under way; for `finish`, steps are left; for the end of an abort, an operation is not yet undone.
    Unfinished,
    /// 7: the store has no such sender.
    UnknownSender,
    /// 8: the body is over 216 bytes.
    TooLong,
    /// 9: another transaction holds the group's sending end.
    SenderBusy,
    /// 10: the group is closed, by a commit or by this transaction.
    Closed,
    /// 11: another transaction holds the group's receiving end.
    ReceiverBusy,
    /// 12: every cell is held, taken by a transaction that has not ended, or meant for a send under way.
    Full,
    /// 13: a page that the operation needs is latched by another, or every page with a free cell is.
    Latched,
    /// 14: frames for the operation's pages cannot be had.
    PoolFull,
    /// 15: a device write, sync, append or force failed in this call.
    DiskWrite,
    /// 16: a page or record breaks the format or its checks.
    Damaged(Damage),
    /// 17: 4,096 transactions have not ended, or this incarnation has begun 2^64 - 1.
    TooManyTransactions,
    /// 18: the page's LSN is over the forced LSN.
    NotForced,
    /// 19: the records of the call, with those that operations under way still owe, would pass 2^50.
    LogFull,
    /// 20: no such operation is under way.
    UnknownOperation,
    /// 21: a transaction has not ended.
    NotQuiet,
    /// 22: the store has no such client.
    UnknownClient,
    /// 23: another transaction holds the client's end.
    ClientBusy,
    /// 24: a store cannot get so many tag pages: they are not 1 to 1,024, or it has some.
    BadTags,
}

impl fmt::Display for Refusal {
    fn fmt<W: fmt::Write>(&self, f: &mut fmt::Formatter<W>) -> fmt::Result {
        f.write_str(self.name())
    }
}

impl std::error::Error for Refusal {}

impl From<NoMemory> for Refusal {
    ghost use Rattle.std.specs.Prelude.{◌≡◌};
    ghost use Rattle.rq_model.specs.declared.refusal.Refusal.TheVariants.{NoMemory as NoMemoryRefusal};

    ghost from_gives = { λ _ e. e ≡ NoMemoryRefusal };

    fn from(_refused: NoMemory) -> Refusal {
        Refusal::NoMemory
    }
}

impl Refusal {
    ghost use Rattle.rq_model.specs.Numbers.{number_of, name_of};

    /// The refusal's number, 1 to 24.
    pub fn number(&self) -> u8
        ensures { result ≡ number_of self.now }
    {
        match self {
            Refusal::NoMemory => 1,
            Refusal::Failed => 2,
            Refusal::DiskRead => 3,
            Refusal::UnknownTransaction => 4,
            Refusal::NotOpen => 5,
            Refusal::Unfinished => 6,
            Refusal::UnknownSender => 7,
            Refusal::TooLong => 8,
            Refusal::SenderBusy => 9,
            Refusal::Closed => 10,
            Refusal::ReceiverBusy => 11,
            Refusal::Full => 12,
            Refusal::Latched => 13,
            Refusal::PoolFull => 14,
            Refusal::DiskWrite => 15,
            Refusal::Damaged(_) => 16,
            Refusal::TooManyTransactions => 17,
            Refusal::NotForced => 18,
            Refusal::LogFull => 19,
            Refusal::UnknownOperation => 20,
            Refusal::NotQuiet => 21,
            Refusal::UnknownClient => 22,
            Refusal::ClientBusy => 23,
            Refusal::BadTags => 24,
        }
    }

    /// The refusal's name, as it is printed.
    pub fn name(&self) -> &'static str
        ensures { result.now ≡ name_of self.now }
    {
        match self {
            Refusal::NoMemory => "NoMemory",
            Refusal::Failed => "Failed",
            Refusal::DiskRead => "DiskRead",
            Refusal::UnknownTransaction => "UnknownTransaction",
            Refusal::NotOpen => "NotOpen",
            Refusal::Unfinished => "Unfinished",
            Refusal::UnknownSender => "UnknownSender",
            Refusal::TooLong => "TooLong",
            Refusal::SenderBusy => "SenderBusy",
            Refusal::Closed => "Closed",
            Refusal::ReceiverBusy => "ReceiverBusy",
            Refusal::Full => "Full",
            Refusal::Latched => "Latched",
            Refusal::PoolFull => "PoolFull",
            Refusal::DiskWrite => "DiskWrite",
            Refusal::Damaged(_) => "Damaged",
            Refusal::TooManyTransactions => "TooManyTransactions",
            Refusal::NotForced => "NotForced",
            Refusal::LogFull => "LogFull",
            Refusal::UnknownOperation => "UnknownOperation",
            Refusal::NotQuiet => "NotQuiet",
            Refusal::UnknownClient => "UnknownClient",
            Refusal::ClientBusy => "ClientBusy",
            Refusal::BadTags => "BadTags",
        }
    }
}
