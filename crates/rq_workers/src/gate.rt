//! Where a worker asks whether to go on.
ghost use Rattle.std.specs.Prelude.{◌≡◌, ℕ, Bool, List, ◌∷◌};

/// Before a force.
pub const BEFORE_FORCE: u32 = 1;

/// Before a page is written.
pub const BEFORE_WRITE: u32 = 2;

/// Between two steps of an operation.
pub const BETWEEN_STEPS: u32 = 3;

/// Before a call that was refused is tried again.
pub const BEFORE_AGAIN: u32 = 4;

/// Before a checkpoint.
pub const BEFORE_CHECKPOINT: u32 = 5;

/// What a worker asks at each point. A gate may wait, and hold the worker up for as long as it likes.
pub trait Gate {
    /// Its answers so far, each with the point at which it was asked, the newest first.
    ghost answers: { Self → List (ℕ × Bool) };

    /// Whether to go on. False ends the worker's loop; an operation under way is finished first.
    fn pass(&mut self, point: u32) -> bool
        ensures { answers self.new ≡ (point, result) ∷ answers self.old };
}
