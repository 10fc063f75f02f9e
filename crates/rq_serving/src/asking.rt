//! A gate, and whether it has said no.
ghost use Rattle.std.specs.Prelude.{◌≡◌, ◌∷◌, ◌||◌, not, false};
ghost use Rattle.rq_serving.specs.Asking.{Asks};

use rq_workers::gate::Gate;

/// A gate, and whether it has said no so far.
#[derive(Drop)]
pub struct Asking<G> {
    gate: G,
    stopped: bool,
}

impl<G: Gate> Asking<G> {
    /// A gate that has not said no.
    pub fn new(gate: G) -> Self
        ensures { (result.gate ≡ gate) × (result.stopped ≡ false) }
    {
        Asking {
            gate,
            stopped: false,
        }
    }

    /// Whether it has said no so far.
    pub fn has_stopped(&self) -> bool
        ensures { result ≡ self.now.stopped }
    {
        self.stopped
    }

    /// Asks at this point whether to go on.
    pub fn asks(&mut self, point: u32) -> bool
        ensures answers { G.answers self.new.gate ≡ (point, result) ∷ G.answers self.old.gate }
        ensures stopped { self.new.stopped ≡ (not result || self.old.stopped) }
    {
        let passed = self.gate.pass(point);
        if !passed {
            self.stopped = true;
        }
        passed
    }

    /// Asks so where that is due, and else does not.
    pub fn asks_where(&mut self, is_due: bool, point: u32)
        ensures { Asks G.answers self.old self.new is_due point }
    {
        if !is_due {
            return;
        }
        self.asks(point);
    }

    /// The gate.
    pub fn into_gate(self) -> G
        ensures { result ≡ self.gate }
    {
        let Asking { gate, stopped: _ } = self;
        gate
    }
}
