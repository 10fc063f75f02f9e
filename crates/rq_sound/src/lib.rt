//! What is so of a store with any number of operations under way, of sends, receives, closes, marks and their inverses,
//! apart from any code; and that each call keeps it.
//!
//! The definitions stand in specs/, the theorems are the contracts of the functions here.
#![tactic(auto)]

ghost use Rattle.rq_sound.specs.Laws.{Laws};

/// What holds of every sound store: each field is a theorem.
pub fn laws()
    ensures { Laws }
{}
