//! Passes, and what lies under the lock.
ghost use Rattle.std.specs.Prelude.{◌≡◌, ◌≢◌, ◌+◌, ℕ, [], ◌∷◌, ◌++◌, length, sum_by};
ghost use Rattle.rq_engine.specs.Applied.{Applied};
ghost use Rattle.rq_shared.specs.Calls.{CountsTaken, IsCalled, IsForced, IsTakenOf};
ghost use Rattle.rq_shared.specs.Begun.{BeginsFrom};
ghost use Rattle.rq_shared.specs.Entries.{BeginsSound, OneMore, noted};
ghost use Rattle.rq_shared.specs.NoEntry.{LeavesNone};

use crate::kept::{Kept, Stamped, Taken, is_no_memory};
use crate::mark::{Mark, MarkPass};
use crate::sharing::{Sharing, Taking};
use rq_disk::{LogDevice, PageDevice};
use rq_engine::event::{Event, Reply};
use rq_level::Level;
use rq_model::refusal::Refusal;
use std::marker::Model;
use std::sync::ledger::{Book, Share};

/// The right to make calls, and to take the audit, under a number. Contracts see the number, how many of its calls left an
/// entry, and how many entries it took.
#[derive(Drop)]
pub struct Pass<G: Sharing> {
    number: u64,
    share: Share<G>,
    taken: Share<Taking<G>>,
}

impl<G: Sharing> Model for Pass<G> {
    ghost use Rattle.std.specs.Prelude.{◌≡◌, ℕ};
    ghost use Rattle.rq_shared.specs.Passes.{PassView};

    ghost Value = { PassView };

    ghost view = { λ p. record { number = p.number; calls = p.share.amount; taken = p.taken.amount } };

    ghost invariant = { λ p. (p.share.parts ≡ 1) × (p.taken.parts ≡ 1) };
}

impl<G: Sharing> Pass<G> {
    /// The number under which this pass calls.
    pub fn number(&self) -> u64
        ensures { result ≡ self.now.number }
    {
        self.number
    }
}

/// What lies under the lock: the kept engine and two counts. One is how many calls left an entry, those whose entries
/// were taken included. The other is how many entries passes took. Contracts see the kept engine.
#[derive(Drop)]
pub(crate) struct Guarded<P: PageDevice, L: LogDevice, B: Level, G: Sharing> {
    kept: Kept<P, L, B>,
    calls: Book<G>,
    taken: Book<Taking<G>>,
}

impl<P: PageDevice, L: LogDevice, B: Level, G: Sharing> Model for Guarded<P, L, B, G> {
    ghost use Rattle.std.specs.Prelude.{◌≡◌, ◌+◌, length};
    ghost use Rattle.rq_shared.specs.Begun.{BeginsFrom};
    ghost use Rattle.rq_shared.specs.Entries.{Audited, BeginsSound};

    ghost Value = { Audited P L };

    ghost view = { λ r. r.kept };

    ghost invariant = { λ r. (r.kept.taken + length r.kept.audit ≡ r.calls.total) × (r.kept.taken ≡ r.taken.total)
        × BeginsSound P.PageDevice L.LogDevice G.premise r.kept
        × BeginsFrom P.PageDevice L.LogDevice G.premise G.begins r.kept };
}

impl<P: PageDevice + Drop, L: LogDevice + Drop, B: Level, G: Sharing> Guarded<P, L, B, G> {
    pub(crate) fn new(kept: Kept<P, L, B>, calls: Book<G>, taken: Book<Taking<G>>) -> Self
        requires counted { kept.taken + length kept.audit ≡ calls.total }
        requires taken { kept.taken ≡ taken.total }
        requires sound { BeginsSound P.PageDevice L.LogDevice G.premise kept }
        requires begun { BeginsFrom P.PageDevice L.LogDevice G.premise G.begins kept }
        ensures { result ≡ kept }
    {
        Guarded { kept, calls, taken }
    }

    /// The kept engine. Who has all shares knows how many calls left an entry, and how many entries were taken.
    pub(crate) fn close(self, all: &mut Share<G>, all_taken: &mut Share<Taking<G>>) -> Kept<P, L, B>
        requires calls { all.old.parts ≡ G.parts }
        requires taken { all_taken.old.parts ≡ G.parts }
        ensures kept { result ≡ self }
        ensures count { result.taken + length result.audit ≡ all.old.amount }
        ensures taken { result.taken ≡ all_taken.old.amount }
        ensures sound { BeginsSound P.PageDevice L.LogDevice G.premise result }
        ensures begun { BeginsFrom P.PageDevice L.LogDevice G.premise G.begins result }
    {
        let Guarded {
            kept,
            mut calls,
            mut taken,
        } = self;
        calls.audit(all);
        taken.audit(all_taken);
        kept
    }

    /// Makes the call of this pass, and counts it where it left an entry.
    pub(crate) fn call(&mut self, pass: &mut Pass<G>, event: Event) -> Stamped
        ensures called { IsCalled pass.old event result pass.new }
        ensures entry { result.reply ≢ Reply.Refused Refusal.NoMemory
            → OneMore self.old.audit self.new.audit (noted pass.old.number event result.reply) }
        ensures applied { result.reply ≢ Reply.Refused Refusal.NoMemory
            → Applied P.PageDevice L.LogDevice self.old.engine event result.reply self.new.engine }
        ensures no_entry { result.reply ≡ Reply.Refused Refusal.NoMemory → LeavesNone P.PageDevice event self.old self.new }
        ensures forced { (lsn : ℕ) → result.reply ≡ Reply.Forced lsn → self.new.engine.state.forced ≡ lsn }
    {
        let stamped = self.kept.step(pass.number, event);
        if !is_no_memory(stamped.reply()) {
            self.calls.add(&mut pass.share, 1);
        }
        stamped
    }

    /// Forces, and then publishes how many records are forced.
    pub(crate) fn force(&mut self, pass: &mut Pass<G>, mark: &Mark, seat: &mut MarkPass) -> Stamped
        requires { seat.old.table ≡ mark.now }
        ensures forced { IsForced pass.old seat.old result pass.new seat.new }
        ensures published { seat.new.published ≡ seat.old.published ++ self.new.engine.state.forced ∷ [] }
    {
        let stamped = self.call(pass, Event::Force);
        mark.publish(seat, &self.kept);
        stamped
    }

    /// Takes the audit, whose entries the pass counts. The count of calls goes on.
    pub(crate) fn take(&mut self, pass: &mut Pass<G>) -> Taken<P, L, B>
        ensures taken { IsTakenOf P.PageDevice L.LogDevice self.old result }
        ensures counted { CountsTaken pass.old (length result.audit) pass.new }
        ensures sound { BeginsSound P.PageDevice L.LogDevice G.premise self.old }
        ensures emptied { self.new.audit ≡ [] }
        ensures engine { self.new.engine ≡ self.old.engine }
    {
        let taken = self.kept.take();
        let entries = taken.entries().len() as u64;
        self.taken.add(&mut pass.taken, entries);
        taken
    }
}

/// A pass of this number, with one share of each ledger.
pub(crate) fn give_pass<G: Sharing>(
    number: u64,
    share: Share<G>,
    taken: Share<Taking<G>>,
) -> Pass<G>
    requires { (share.parts ≡ 1) × (taken.parts ≡ 1) }
    ensures { (result.number ≡ number) × (result.calls ≡ share.amount) × (result.taken ≡ taken.amount) }
{
    Pass {
        number,
        share,
        taken,
    }
}

/// The shares of all passes, put to those that were not given out.
pub(crate) fn gather<G: Sharing>(
    rest: Share<G>,
    rest_taken: Share<Taking<G>>,
    passes: Vec<Pass<G>>,
) -> (Share<G>, Share<Taking<G>>)
    ensures parts { result.0.parts ≡ rest.parts + length passes.items }
    ensures amount { result.0.amount ≡ rest.amount + sum_by (λ p. p.calls) passes.items }
    ensures taken_parts { result.1.parts ≡ rest_taken.parts + length passes.items }
    ensures taken { result.1.amount ≡ rest_taken.amount + sum_by (λ p. p.taken) passes.items }
{
    let mut all = rest;
    let mut all_taken = rest_taken;
    for pass in passes {
        let Pass {
            number: _,
            share,
            taken,
        } = pass;
        all.merge(share);
        all_taken.merge(taken);
    }
    (all, all_taken)
}
