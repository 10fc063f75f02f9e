//! A list that contracts alone see: it has no bytes.
ghost use Rattle.std.specs.Prelude.{◌≡◌, [], ◌∷◌};

use std::marker::Model;
use std::mem;
use std::snapshot::Snapshot;

/// Values, the newest first, as contracts see them.
#[derive(Drop)]
pub struct GhostList<T> {
    newest: Option<(Snapshot<T>, Snapshot<GhostList<T>>)>,
}

impl<T> Model for GhostList<T> {
    ghost use Rattle.std.specs.Prelude.{List, length};
    ghost use Rattle.rq_bytes.specs.Ghosts.{noted};

    ghost Value = { List T };

    ghost view = { λ l. noted l.newest };

    ghost size = { length };

    ghost use Rattle.std.proofs.Common.{arith};

    ghost size_decreases = { λ a h. Prim.grind arith };
}

impl<T> GhostList<T> {
    /// No value.
    pub fn empty() -> Snapshot<GhostList<T>>
        ensures { result.value ≡ [] }
    {
        Snapshot::of(&GhostList { newest: None })
    }

    fn with(before: Snapshot<GhostList<T>>, value: &T) -> Snapshot<GhostList<T>>
        ensures { result.value ≡ value.now ∷ before.value }
    {
        Snapshot::of(&GhostList {
            newest: Some((Snapshot::of(value), before)),
        })
    }

    /// Puts a value in front.
    pub fn push(list: &mut Snapshot<GhostList<T>>, value: &T)
        ensures { list.new.value ≡ value.now ∷ list.old.value }
    {
        let before = mem::replace(list, GhostList::empty());
        *list = GhostList::with(before, value);
    }
}
