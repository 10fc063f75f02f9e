//! What a sharing of an engine is known by, in contracts alone.
ghost use Rattle.std.specs.Prelude.{ℕ, []};
ghost use Rattle.rq_store.specs.State.{State};
ghost use Rattle.rq_store.specs.Opening.{opened};

use std::marker::{Brand, PhantomData};
use std::sync::ledger::Ledger;

/// One sharing of an engine. It has the ledger of the engine's calls, and the name of the ledger of the entries that
/// are taken. It also has the premise under which the engine was sound as it was shared, and what the engine was then.
/// Whoever shares an engine picks them. The premise may always be that very fact, that it was sound.
pub trait Sharing: Ledger {
    /// The premise.
    ghost premise: { Type 0 };

    /// The name of the ledger of the entries that are taken.
    ghost taking: { ℕ };

    /// The engine as it was shared.
    ghost begins: { State };
}

impl Sharing for Brand {
    ghost premise = { ⊥ };

    ghost taking = { 0 };

    ghost begins = { opened (record { directory = 0; cells = 0; tags = 0 }) [] [] };
}

/// The ledger of the entries that are taken of an audit. It has as many parts as that of the calls.
pub struct Taking<G: Sharing> {
    marker: PhantomData<G>,
}

impl<G: Sharing> Ledger for Taking<G> {
    ghost name = { G.taking };

    ghost parts = { G.parts };
}
