//! How a worker calls a store.
ghost use Rattle.std.specs.Prelude.{◌≡◌, ◌≤◌, ◌+◌, ℕ, List, ◌∷◌, true, IfSome, IfNone};
ghost use Rattle.rq_engine.specs.Says.{call_of, has_body};
ghost use Rattle.rq_workers.specs.Forcing.{lsn_forced};
ghost use Rattle.rq_workers.specs.Keeping.{count_left};
ghost use Rattle.rq_shared.specs.declared.kept.Stamped.{Stamped as Stamp};

use rq_engine::event::Event;
use rq_shared::kept::Stamped;

/// The calls of a store, one at a time, and the copies of what is to be called more than once.
pub trait Steps {
    /// The stamps of the calls made so far, the newest first.
    ghost made: { Self → List Stamp };

    /// Those of them that `force` answered, the newest first.
    ghost forced: { Self → List Stamp };

    /// The stamps handed on so far, the newest first.
    ghost told: { Self → List Stamp };

    /// How often memory was wanting for a copy.
    ghost lacked: { Self → ℕ };

    /// How many of its calls left an entry, as the audit, or the pass that it calls under, counts them.
    ghost counted: { Self → ℕ };

    /// No smaller than any LSN that `force` answered, and never falling: that of `SharedSteps` is what its seat of the mark
    /// saw.
    ghost shown: { Self → ℕ };

    /// Makes the call that the event stands for.
    fn call(&mut self, event: Event) -> Stamped
        ensures event { result.event ≡ event }
        ensures made { made self.new ≡ result ∷ made self.old }
        ensures forced { forced self.new ≡ forced self.old }
        ensures told { told self.new ≡ told self.old }
        ensures lacked { lacked self.new ≡ lacked self.old }
        ensures counted { counted self.new ≡ count_left result + counted self.old }
        ensures shown { shown self.old ≤ shown self.new };

    /// Forces. What `shown` says is at least what was forced.
    fn force(&mut self) -> Stamped
        ensures event { result.event ≡ Event.Force }
        ensures made { made self.new ≡ result ∷ made self.old }
        ensures forced { forced self.new ≡ result ∷ forced self.old }
        ensures told { told self.new ≡ told self.old }
        ensures lacked { lacked self.new ≡ lacked self.old }
        ensures counted { counted self.new ≡ count_left result + counted self.old }
        ensures shown { (shown self.old ≤ shown self.new) × (lsn_forced result.reply ≤ shown self.new) };

    /// Is handed a stamp, once it was read.
    fn seen(&mut self, stamped: Stamped)
        ensures made { made self.new ≡ made self.old }
        ensures forced { forced self.new ≡ forced self.old }
        ensures told { told self.new ≡ stamped ∷ told self.old }
        ensures lacked { lacked self.new ≡ lacked self.old }
        ensures counted { counted self.new ≡ counted self.old }
        ensures shown { shown self.old ≤ shown self.new };

    /// A copy of what is to be called, where there is memory for the body that it has.
    fn copy(&mut self, event: &Event) -> Option<Event>
        ensures copy { IfSome result (λ copy. (call_of copy ≡ call_of event.now) × (lacked self.new ≡ lacked self.old)) }
        ensures lacked { IfNone result (lacked self.new ≡ lacked self.old + 1) }
        ensures body { IfNone result (has_body (call_of event.now) ≡ true) }
        ensures made { made self.new ≡ made self.old }
        ensures forced { forced self.new ≡ forced self.old }
        ensures told { told self.new ≡ told self.old }
        ensures counted { counted self.new ≡ counted self.old }
        ensures shown { shown self.old ≤ shown self.new };
}
