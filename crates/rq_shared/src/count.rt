//! A count with no bound and no bytes, which contracts alone see.
ghost use Rattle.std.specs.Prelude.{◌≡◌, ℕ, ◌+◌};

use std::marker::Model;
use std::snapshot::Snapshot;

/// A count: what it was, and what came to it.
#[derive(Drop)]
pub struct Count {
    before: Option<Snapshot<Count>>,
    more: u64,
}

impl Model for Count {
    ghost use Rattle.std.specs.Prelude.{ℕ, ◌+◌};

    ghost Value = { ℕ × ℕ };

    ghost use Rattle.rq_shared.specs.Counts.{counted, steps_of};

    ghost view = { λ c. (counted c.before + c.more, steps_of c.before) };

    ghost size = { λ n. n.1 };

    ghost use Rattle.std.proofs.Common.{arith};

    ghost size_decreases = { λ a h. Prim.grind arith };
}

/// No call yet.
pub fn zero() -> Snapshot<Count>
    ensures { result.value.0 ≡ 0 }
{
    Snapshot::of(&Count {
        before: None,
        more: 0,
    })
}

/// So many more.
pub fn plus(before: Snapshot<Count>, more: u64) -> Snapshot<Count>
    ensures { result.value.0 ≡ before.value.0 + more }
{
    Snapshot::of(&Count {
        before: Some(before),
        more,
    })
}

/// The same count, and the count with so many more.
pub fn same_and_more(before: Snapshot<Count>, more: u64) -> (Snapshot<Count>, Snapshot<Count>)
    ensures same { result.0.value.0 ≡ before.value.0 }
    ensures more { result.1.value.0 ≡ before.value.0 + more }
{
    let count = Count {
        before: Some(before),
        more: 0,
    };
    let same = Snapshot::of(&count);
    (same, plus(Snapshot::of(&count), more))
}
