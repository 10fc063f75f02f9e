//! Operations of the engine, by two stores in the same state.
ghost use Rattle.std.specs.Prelude.{◌≡◌, IfOk};
ghost use Rattle.rq_engine.specs.Opened.{AreHonest};
ghost use Rattle.rq_engine.specs.Says.{outcome_of};
ghost use Rattle.rq_laws.specs.Alike.{AreAlike, HoldAlike, StartedAlike};
ghost use Rattle.rq_laws.specs.Refusals.{LatchedApart, RefuseAlike, TakenApart};
ghost use Rattle.rq_sound.specs.Sound.{IsSound};

use rq_disk::{LogDevice, PageDevice};
use rq_engine::engine::Engine;
use rq_engine::event::{Outcome, Progress};
use rq_level::Level;
use rq_model::refusal::Refusal;
use rq_model::txn::{Sub, Txn};

/// The start of a send answers the same and leaves the same state, the cell that it takes with it. Excludes one that
/// is refused as Full or Latched where it need not be, such as by one latch for the whole store.
pub fn start_send<P: PageDevice, L: LogDevice, B: Level>(
    first: &mut Engine<P, L, B>,
    second: &mut Engine<P, L, B>,
    txn: Txn,
    sender: u32,
    tag: u64,
    body: &[u8],
) -> (Result<Sub, Refusal>, Result<Sub, Refusal>)
    requires same { first.old ≡ second.old }
    ensures same { P.honest first.new.pages → P.honest second.new.pages → IfOk result.0 (λ a. IfOk result.1
        (λ b. (a ≡ b) × AreAlike first.new.state second.new.state)) }
    ensures latched { P.honest first.new.pages → P.honest second.new.pages → IsSound first.old.state
        → LatchedApart result.0 result.1 }
    ensures decided { AreHonest P.PageDevice L.LogDevice first.new → AreHonest P.PageDevice L.LogDevice second.new
        → IsSound first.old.state → RefuseAlike result.0 result.1 }
{
    (
        first.start_send(txn, sender, tag, body),
        second.start_send(txn, sender, tag, body),
    )
}

/// The start of a receive from some group answers the same: which group it takes from is free. Excludes None where some
/// group gives a message, and Latched where one can be had on pages that nobody has latched.
pub fn start_receive<P: PageDevice, L: LogDevice, B: Level>(
    first: &mut Engine<P, L, B>,
    second: &mut Engine<P, L, B>,
    txn: Txn,
) -> (Result<Option<Sub>, Refusal>, Result<Option<Sub>, Refusal>)
    requires same { first.old ≡ second.old }
    ensures same { P.honest first.new.pages → P.honest second.new.pages → IfOk result.0 (λ a. IfOk result.1
        (λ b. StartedAlike a b first.new.state second.new.state)) }
    ensures latched { P.honest first.new.pages → P.honest second.new.pages → IsSound first.old.state
        → TakenApart result.0 result.1 }
    ensures decided { AreHonest P.PageDevice L.LogDevice first.new → AreHonest P.PageDevice L.LogDevice second.new
        → IsSound first.old.state → RefuseAlike result.0 result.1 }
{
    (first.start_receive(txn), second.start_receive(txn))
}

/// The start of a receive from a group answers the same and leaves the same state. Excludes None where its message
/// needs a latched page.
pub fn start_receive_from<P: PageDevice, L: LogDevice, B: Level>(
    first: &mut Engine<P, L, B>,
    second: &mut Engine<P, L, B>,
    txn: Txn,
    sender: u32,
) -> (Result<Option<Sub>, Refusal>, Result<Option<Sub>, Refusal>)
    requires same { first.old ≡ second.old }
    ensures same { P.honest first.new.pages → P.honest second.new.pages → IfOk result.0 (λ a. IfOk result.1
        (λ b. (a ≡ b) × AreAlike first.new.state second.new.state)) }
    ensures latched { P.honest first.new.pages → P.honest second.new.pages → IsSound first.old.state
        → TakenApart result.0 result.1 }
    ensures decided { AreHonest P.PageDevice L.LogDevice first.new → AreHonest P.PageDevice L.LogDevice second.new
        → IsSound first.old.state → RefuseAlike result.0 result.1 }
{
    (
        first.start_receive_from(txn, sender),
        second.start_receive_from(txn, sender),
    )
}

/// The start of a close answers the same and leaves the same state. Excludes one that plans a receive.
pub fn start_close<P: PageDevice, L: LogDevice, B: Level>(
    first: &mut Engine<P, L, B>,
    second: &mut Engine<P, L, B>,
    txn: Txn,
    sender: u32,
) -> (Result<Sub, Refusal>, Result<Sub, Refusal>)
    requires same { first.old ≡ second.old }
    ensures same { P.honest first.new.pages → P.honest second.new.pages → IfOk result.0 (λ a. IfOk result.1
        (λ b. (a ≡ b) × AreAlike first.new.state second.new.state)) }
    ensures latched { IsSound first.old.state → LatchedApart result.0 result.1 }
    ensures decided { AreHonest P.PageDevice L.LogDevice first.new → AreHonest P.PageDevice L.LogDevice second.new
        → IsSound first.old.state → RefuseAlike result.0 result.1 }
{
    (
        first.start_close(txn, sender),
        second.start_close(txn, sender),
    )
}

/// The start of a mark answers the same and leaves the same state. Excludes one that writes another tag, or that forgets the
/// tag before it.
pub fn start_mark<P: PageDevice, L: LogDevice, B: Level>(
    first: &mut Engine<P, L, B>,
    second: &mut Engine<P, L, B>,
    txn: Txn,
    client: u32,
    tag: u64,
) -> (Result<Sub, Refusal>, Result<Sub, Refusal>)
    requires same { first.old ≡ second.old }
    ensures same { P.honest first.new.pages → P.honest second.new.pages → IfOk result.0 (λ a. IfOk result.1
        (λ b. (a ≡ b) × AreAlike first.new.state second.new.state)) }
    ensures latched { IsSound first.old.state → LatchedApart result.0 result.1 }
    ensures decided { AreHonest P.PageDevice L.LogDevice first.new → AreHonest P.PageDevice L.LogDevice second.new
        → IsSound first.old.state → RefuseAlike result.0 result.1 }
{
    (
        first.start_mark(txn, client, tag),
        second.start_mark(txn, client, tag),
    )
}

/// The start of an inverse answers the same and leaves the same state. Excludes one that takes back another operation
/// than the last, or nothing, and one that is refused as Damaged for Latched.
pub fn undo_next<P: PageDevice, L: LogDevice, B: Level>(
    first: &mut Engine<P, L, B>,
    second: &mut Engine<P, L, B>,
    txn: Txn,
) -> (Result<Option<Sub>, Refusal>, Result<Option<Sub>, Refusal>)
    requires same { first.old ≡ second.old }
    ensures same { P.honest first.new.pages → P.honest second.new.pages → IfOk result.0 (λ a. IfOk result.1
        (λ b. (a ≡ b) × AreAlike first.new.state second.new.state)) }
    ensures latched { P.honest first.new.pages → P.honest second.new.pages → IsSound first.old.state
        → TakenApart result.0 result.1 }
    ensures decided { AreHonest P.PageDevice L.LogDevice first.new → AreHonest P.PageDevice L.LogDevice second.new
        → IsSound first.old.state → RefuseAlike result.0 result.1 }
{
    (first.undo_next(txn), second.undo_next(txn))
}

/// A step answers the same and leaves the same state, but for the bytes of pages, whose slots hold the same. Excludes
/// one that writes another slot, or logs another record.
pub fn step<P: PageDevice, L: LogDevice, B: Level>(
    first: &mut Engine<P, L, B>,
    second: &mut Engine<P, L, B>,
    sub: Sub,
) -> (Result<Progress, Refusal>, Result<Progress, Refusal>)
    requires same { first.old ≡ second.old }
    ensures same { IfOk result.0 (λ a. IfOk result.1
        (λ b. (a ≡ b) × HoldAlike first.new.state second.new.state)) }
    ensures decided { AreHonest P.PageDevice L.LogDevice first.new → AreHonest P.PageDevice L.LogDevice second.new
        → IsSound first.old.state → RefuseAlike result.0 result.1 }
{
    (first.step(sub), second.step(sub))
}

/// The end of an operation answers the same and leaves the same state. Excludes one that counts the cell of a message
/// as free that is taken and not committed. Excludes one that has a message wait that is not committed, and one that
/// gives ends back.
pub fn finish<P: PageDevice, L: LogDevice, B: Level>(
    first: &mut Engine<P, L, B>,
    second: &mut Engine<P, L, B>,
    sub: Sub,
) -> (Result<Outcome, Refusal>, Result<Outcome, Refusal>)
    requires same { first.old ≡ second.old }
    ensures same { IfOk result.0 (λ a. IfOk result.1
        (λ b. (outcome_of a ≡ outcome_of b) × (first.new.state ≡ second.new.state))) }
    ensures decided { AreHonest P.PageDevice L.LogDevice first.new → AreHonest P.PageDevice L.LogDevice second.new
        → IsSound first.old.state → RefuseAlike result.0 result.1 }
{
    (first.finish(sub), second.finish(sub))
}
