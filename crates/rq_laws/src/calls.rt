//! Calls of the engine that start and step no operation, by two stores in the same state.
ghost use Rattle.std.specs.Prelude.{◌≡◌, ◌≤◌, ◌<◌, ℕ, List, IfOk, map};
ghost use Rattle.rq_content.specs.Read.{group_of};
ghost use Rattle.rq_engine.specs.Opened.{AreHonest};
ghost use Rattle.rq_engine.specs.Says.{receipt_of};
ghost use Rattle.rq_laws.specs.Alike.{LeftAlike, ReadAlike};
ghost use Rattle.rq_laws.specs.Made.{MakeAlike, OnBoth};
ghost use Rattle.rq_laws.specs.Refusals.{RefuseAlike, RefuseTheSame};
ghost use Rattle.rq_page.specs.Sizes.{page_count, with_tags};
ghost use Rattle.rq_sound.specs.Sound.{IsSound};

use rq_content::GroupContent;
use rq_disk::{LogDevice, PageDevice};
use rq_engine::engine::Engine;
use rq_engine::event::{ClientTag, CommitNo, LastTag, Receipt};
use rq_level::Level;
use rq_model::refusal::Refusal;
use rq_model::txn::{Lsn, Txn};
use rq_pool::Written;

/// A transaction that is begun has the same number. Excludes a number that is given twice, and a begin that is refused
/// as too many or as failed where it need not be.
pub fn begin<P: PageDevice, L: LogDevice, B: Level>(
    first: &mut Engine<P, L, B>,
    second: &mut Engine<P, L, B>,
) -> (Result<Txn, Refusal>, Result<Txn, Refusal>)
    requires same { first.old ≡ second.old }
    ensures same { IfOk result.0 (λ a. IfOk result.1 (λ b. a ≡ b)) }
    ensures decided { AreHonest P.PageDevice L.LogDevice first.new → AreHonest P.PageDevice L.LogDevice second.new
        → IsSound first.old.state → RefuseAlike result.0 result.1 }
{
    (first.begin(), second.begin())
}

/// A commit answers the same number, leaves the same state, and leaves the pages alone. Excludes a number that
/// `acknowledged` is then asked with in vain, and a commit that keeps its ends held. Excludes one that has what it sent
/// wait before, or twice. Excludes one that leaves the cells of what it took in use.
pub fn commit<P: PageDevice, L: LogDevice, B: Level>(
    first: &mut Engine<P, L, B>,
    second: &mut Engine<P, L, B>,
    txn: Txn,
) -> (Result<CommitNo, Refusal>, Result<CommitNo, Refusal>)
    requires same { first.old ≡ second.old }
    ensures number { IfOk result.0 (λ a. IfOk result.1 (λ b. a ≡ b)) }
    ensures state { IfOk result.0 (λ a. IfOk result.1 (λ b. first.new.state ≡ second.new.state)) }
    ensures devices { IfOk result.0 (λ a. IfOk result.1 (λ b. first.new.pages ≡ second.new.pages)) }
    ensures decided { AreHonest P.PageDevice L.LogDevice first.new → AreHonest P.PageDevice L.LogDevice second.new
        → IsSound first.old.state → RefuseAlike result.0 result.1 }
{
    (first.commit(txn), second.commit(txn))
}

/// An abort that is started leaves the same state. Excludes one that drops what is to be undone.
pub fn start_abort<P: PageDevice, L: LogDevice, B: Level>(
    first: &mut Engine<P, L, B>,
    second: &mut Engine<P, L, B>,
    txn: Txn,
) -> (Result<(), Refusal>, Result<(), Refusal>)
    requires same { first.old ≡ second.old }
    ensures same { IfOk result.0 (λ a. IfOk result.1 (λ b. first.new.state ≡ second.new.state)) }
    ensures decided { AreHonest P.PageDevice L.LogDevice first.new → AreHonest P.PageDevice L.LogDevice second.new
        → IsSound first.old.state → RefuseAlike result.0 result.1 }
{
    (first.start_abort(txn), second.start_abort(txn))
}

/// The end of an abort leaves the same state. Excludes one that keeps the ends of its transaction.
pub fn end_abort<P: PageDevice, L: LogDevice, B: Level>(
    first: &mut Engine<P, L, B>,
    second: &mut Engine<P, L, B>,
    txn: Txn,
) -> (Result<(), Refusal>, Result<(), Refusal>)
    requires same { first.old ≡ second.old }
    ensures same { IfOk result.0 (λ a. IfOk result.1 (λ b. first.new.state ≡ second.new.state)) }
    ensures decided { AreHonest P.PageDevice L.LogDevice first.new → AreHonest P.PageDevice L.LogDevice second.new
        → IsSound first.old.state → RefuseAlike result.0 result.1 }
{
    (first.end_abort(txn), second.end_abort(txn))
}

/// Whether a commit is durable is told alike, or both are refused for the same. Excludes a receipt before the force,
/// none behind it, and a refusal of a store that runs.
pub fn acknowledged<P: PageDevice, L: LogDevice, B: Level>(
    first: &Engine<P, L, B>,
    second: &Engine<P, L, B>,
    number: CommitNo,
) -> (
    Result<Option<Receipt>, Refusal>,
    Result<Option<Receipt>, Refusal>,
)
    requires same { first.now ≡ second.now }
    ensures same { IfOk result.0 (λ a. IfOk result.1 (λ b. receipt_of a ≡ receipt_of b)) }
    ensures decided { RefuseTheSame result.0 result.1 }
{
    (first.acknowledged(number), second.acknowledged(number))
}

/// A hand-over leaves the same state, and both logs read as the same bytes. Where one is refused, so is the other, but
/// for a device that failed. Excludes one that does nothing, and a refusal of a store that runs.
pub fn hand_over<P: PageDevice, L: LogDevice, B: Level>(
    first: &mut Engine<P, L, B>,
    second: &mut Engine<P, L, B>,
) -> (Result<(), Refusal>, Result<(), Refusal>)
    requires same { first.old ≡ second.old }
    ensures same { IfOk result.0 (λ a. IfOk result.1 (λ b. first.new.state ≡ second.new.state)) }
    ensures reads { IfOk result.0 (λ _. IfOk result.1 (λ _. L.honest first.new.log → L.honest second.new.log
        → L.seen first.new.log ≡ L.seen second.new.log)) }
    ensures decided { RefuseAlike result.0 result.1 }
{
    (first.hand_over(), second.hand_over())
}

/// A force forces the same records and leaves the same state. Both logs read as the same bytes, and a crash leaves the
/// same of both. Where one is refused, so is the other, but for a device that failed. Excludes one that counts what it
/// did not hand over, or did not force, and a refusal of a store that runs.
pub fn force<P: PageDevice, L: LogDevice, B: Level>(
    first: &mut Engine<P, L, B>,
    second: &mut Engine<P, L, B>,
) -> (Result<Lsn, Refusal>, Result<Lsn, Refusal>)
    requires same { first.old ≡ second.old }
    ensures same { IfOk result.0 (λ a. IfOk result.1 (λ b. a ≡ b)) }
    ensures state { IfOk result.0 (λ _. IfOk result.1 (λ _. first.new.state ≡ second.new.state)) }
    ensures reads { IfOk result.0 (λ _. IfOk result.1 (λ _. L.honest first.new.log → L.honest second.new.log
        → L.seen first.new.log ≡ L.seen second.new.log)) }
    ensures durable { IfOk result.0 (λ _. IfOk result.1 (λ _. L.honest first.new.log → L.honest second.new.log
        → (c d : List ℕ) → L.may_leave first.new.log c → L.may_leave second.new.log d → c ≡ d)) }
    ensures decided { RefuseAlike result.0 result.1 }
{
    (first.force(), second.force())
}

/// A checkpoint answers the same LSN and leaves the same state. Both logs read as the same bytes, and a crash leaves
/// the same of both devices. Where one is refused, so is the other, but for a device that failed, and never for memory.
/// Refused for the same they leave the same state; unless a device failed, the same store. Excludes a contract that
/// leaves open the LSN, what is forced or written, or when a checkpoint is refused. Excludes one that leaves open
/// whether the store runs on behind a failure.
pub fn checkpoint<P: PageDevice, L: LogDevice, B: Level>(
    first: &mut Engine<P, L, B>,
    second: &mut Engine<P, L, B>,
) -> (Result<Lsn, Refusal>, Result<Lsn, Refusal>)
    requires same { first.old ≡ second.old }
    ensures { MakeAlike P.PageDevice L.LogDevice first.old first.new second.new result.0 result.1 }
{
    (first.checkpoint(), second.checkpoint())
}

/// A migration answers the same LSN and leaves the same state. Both logs read as the same bytes. A crash leaves the same of both
/// logs, of each page of the store, and of each behind the tag pages. Of page 0 and of each tag page it leaves the same header
/// and slots. Where one is refused, so is the other, but for a device that failed, and never for memory. Refused for the same
/// they leave the same state; unless a device failed, the same store. Excludes a contract that leaves open the LSN, which tag
/// pages come, what is written behind them, or when a migration is refused. Excludes one that leaves open whether the store
/// runs on.
pub fn migrate<P: PageDevice, L: LogDevice, B: Level>(
    first: &mut Engine<P, L, B>,
    second: &mut Engine<P, L, B>,
    pages: u32,
) -> (Result<Lsn, Refusal>, Result<Lsn, Refusal>)
    requires same { first.old ≡ second.old }
    ensures alike { MakeAlike P.PageDevice L.LogDevice first.old first.new second.new result.0 result.1 }
    ensures first { OnBoth result.0 result.1 ((c d : List ℕ) → P.may_be first.new.pages 0 c → P.may_be second.new.pages 0 d
        → ReadAlike c d) }
    ensures tags { OnBoth result.0 result.1 ((p : ℕ) → page_count first.old.state.sizes ≤ p
        → p < page_count (with_tags pages first.old.state.sizes) → (c d : List ℕ) → P.may_be first.new.pages p c
        → P.may_be second.new.pages p d → ReadAlike c d) }
    ensures beyond { OnBoth result.0 result.1 ((p : ℕ) → page_count (with_tags pages first.old.state.sizes) ≤ p
        → (c d : List ℕ) → P.may_be first.new.pages p c → P.may_be second.new.pages p d → c ≡ d) }
{
    (first.migrate(pages), second.migrate(pages))
}

/// The last tag is told alike; and of a sound store both are refused for the same, or neither is. Of a store that is not
/// sound the contract does not say when a sender is unknown. Excludes a tag that is taken from the cells that are left,
/// and a refusal of a sender of the store.
pub fn last_tag<P: PageDevice, L: LogDevice, B: Level>(
    first: &Engine<P, L, B>,
    second: &Engine<P, L, B>,
    sender: u32,
) -> (Result<LastTag, Refusal>, Result<LastTag, Refusal>)
    requires same { first.now ≡ second.now }
    ensures same { IfOk result.0 (λ a. IfOk result.1 (λ b. a ≡ b)) }
    ensures decided { AreHonest P.PageDevice L.LogDevice first.now → AreHonest P.PageDevice L.LogDevice second.now
        → IsSound first.now.state → RefuseTheSame result.0 result.1 }
{
    (first.last_tag(sender), second.last_tag(sender))
}

/// The last tag of a client is told alike, and so is how many it marked. A sound store refuses both for the same, or
/// neither. Excludes a tag that is not committed, one of another client, and a refusal of a client of the store.
pub fn client_tag<P: PageDevice, L: LogDevice, B: Level>(
    first: &Engine<P, L, B>,
    second: &Engine<P, L, B>,
    client: u32,
) -> (Result<ClientTag, Refusal>, Result<ClientTag, Refusal>)
    requires same { first.now ≡ second.now }
    ensures same { IfOk result.0 (λ a. IfOk result.1 (λ b. a ≡ b)) }
    ensures decided { AreHonest P.PageDevice L.LogDevice first.now → AreHonest P.PageDevice L.LogDevice second.now
        → IsSound first.now.state → RefuseTheSame result.0 result.1 }
{
    (first.client_tag(client), second.client_tag(client))
}

/// A page that goes out leaves the same state, the same pages to be written, and what both devices read of each page.
/// Where one is refused, so is the other for the same, but for a device that failed. Excludes a page that goes out
/// before its last record is forced, and one that is answered as written and is not. Excludes one that stays to be
/// written.
pub fn write_page<P: PageDevice, L: LogDevice, B: Level>(
    first: &mut Engine<P, L, B>,
    second: &mut Engine<P, L, B>,
    page: u32,
) -> (Result<Written, Refusal>, Result<Written, Refusal>)
    requires same { first.old ≡ second.old }
    ensures same { IfOk result.0 (λ a. IfOk result.1
        (λ b. (a ≡ b) × (first.new.state ≡ second.new.state) × (first.new.changed ≡ second.new.changed))) }
    ensures reads { IfOk result.0 (λ _. IfOk result.1
        (λ _. (p : ℕ) → P.seen first.new.pages p ≡ P.seen second.new.pages p)) }
    ensures log { first.new.log ≡ second.new.log }
    ensures decided { RefuseAlike result.0 result.1 }
{
    (first.write_page(page), second.write_page(page))
}

/// Of a sound store the same content is shown. Of one that is not sound, or whose devices were not honest, the contract
/// says nothing of what is shown. Both leave the same but for pages that were read, and over honest devices the same lists.
/// Excludes what is not committed, what was received, and a group that is left out.
pub fn content<P: PageDevice, L: LogDevice, B: Level>(
    first: &mut Engine<P, L, B>,
    second: &mut Engine<P, L, B>,
) -> (
    Result<Vec<GroupContent>, Refusal>,
    Result<Vec<GroupContent>, Refusal>,
)
    requires same { first.old ≡ second.old }
    ensures same { AreHonest P.PageDevice L.LogDevice first.new → AreHonest P.PageDevice L.LogDevice second.new
        → IsSound first.old.state
        → IfOk result.0 (λ a. IfOk result.1 (λ b. map group_of a.items ≡ map group_of b.items)) }
    ensures left { OnBoth result.0 result.1 (LeftAlike first.new second.new × (first.new.changed ≡ second.new.changed)) }
    ensures lists { P.honest first.new.pages → P.honest second.new.pages
        → OnBoth result.0 result.1 (first.new.state ≡ second.new.state) }
    ensures decided { AreHonest P.PageDevice L.LogDevice first.new → AreHonest P.PageDevice L.LogDevice second.new
        → IsSound first.old.state → RefuseAlike result.0 result.1 }
{
    (first.content(), second.content())
}
