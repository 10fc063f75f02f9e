//! Levels that are handed in for a store.
ghost use Rattle.std.specs.Prelude.{◌≡◌, ◌<◌, length, map};
ghost use Rattle.rq_model.specs.Deeds.{deed_by};
ghost use Rattle.rq_model.specs.Vocabulary.{is_some};
ghost use Rattle.rq_level.specs.Meaning.{CountOn};
ghost use Rattle.rq_planner.specs.Handed.{AreForStores, AreForStores-prop};

use rq_level::{Level, Levels};

/// The levels of a store, of whatever size it may be: one of each number, and any others. Each has room for what it keeps of the
/// greatest store. They were told of nothing yet, or of another store.
#[derive(Drop)]
pub struct StoreLevels<B: Level> {
    pub levels: Levels<B>,
    ghost fit: { AreForStores levels } by { AreForStores-prop levels },
}

impl<B: Level> StoreLevels<B> {
    /// These levels, in the order of their numbers.
    pub fn new(levels: Vec<B>) -> StoreLevels<B>
        requires numbers { CountOn 0 (map (λ b. B.level b) levels.items) }
        requires fit { AreForStores (map (λ b. B.kept b) levels.items) }
        ensures { result.levels ≡ map (λ b. B.kept b) levels.items }
    {
        StoreLevels {
            levels: Levels::new(levels),
        }
    }

    /// Whether there is a level of this number, and the bytes are a deed of it.
    #[tactic(auto, using(crate::proofs::Told::none_reads))]
    pub fn reads(&self, level: u8, deed: &[u8]) -> bool
        ensures { result ≡ is_some (deed_by level deed.now) }
    {
        let level = level as usize;
        if level >= self.levels.len() {
            return false;
        }
        self.levels.reads(level, deed)
    }
}
