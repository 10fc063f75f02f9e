//! The durable mark: one word, which threads publish to and read without waiting.

ghost use Rattle.std.specs.Prelude.{◌≡◌, ◌≤◌, ℕ, [], ◌∷◌, ◌++◌, IfOk};
ghost use Rattle.rq_model.specs.Vocabulary.{In};

use crate::kept::Kept;
use atomic_table::{Play, Seat, Split, Table, TableRule};
use rq_disk::{LogDevice, PageDevice};
use rq_level::Level;
use std::alloc::{AllocError, Global};
use std::collections::LinkedList;
use std::marker::Model;

// The numbers that a seat published, and the greatest that it saw. No value of it is made.
pub struct View {
    pub published: LinkedList<u64>,
    pub saw: u64,
}

pub struct MarkRule;

impl TableRule<(), View, ()> for MarkRule {
    ghost use Rattle.rq_shared.specs.Marks.{IsMark, newcomer};

    ghost holds = { λ _ s. IsMark s.words s.views };

    ghost first = { λ _. newcomer };
}

pub struct Publish;

impl Play<(), View> for Publish {
    ghost use Rattle.rq_shared.specs.Marks.{Publishes};

    ghost then = { Publishes };
}

pub struct Read;

impl Play<(), View> for Read {
    ghost use Rattle.rq_shared.specs.Marks.{Reads};

    ghost then = { Reads };
}

pub struct Fork;

impl Split<View> for Fork {
    ghost use Rattle.std.specs.Prelude.{[]};
    ghost use Rattle.rq_shared.specs.Marks.{seat_view};

    ghost left = { λ v. v };

    ghost right = { λ v. seat_view [] v.saw };
}

/// The mark. To a contract it is its table.
#[derive(Drop)]
pub struct Mark {
    table: Table<(), View, (), MarkRule, Global>,
}

impl Model for Mark {
    ghost use Rattle.std.specs.Prelude.{◌≡◌};
    ghost use Rattle.atomic_table.specs.Seated.{TableId, table_id_coded};

    ghost Value = { TableId };

    ghost coded = { table_id_coded };

    ghost view = { λ m. m.table.shared.table_id };

    ghost invariant = { λ m. m.table.shared.table_id.words ≡ 1 };
}

/// What one thread published, and the greatest that it saw.
#[derive(Drop)]
pub struct MarkPass {
    seat: Seat<(), View>,
}

impl Model for MarkPass {
    ghost use Rattle.std.specs.Prelude.{◌≤◌, ℕ};
    ghost use Rattle.rq_shared.specs.Marks.{MarkView, pass_code};
    ghost use Rattle.rq_model.specs.Vocabulary.{In};

    ghost Value = { MarkView };

    ghost coded = { pass_code };

    ghost view = { λ p. record { table = p.seat.table_id; published = p.seat.me.0.published; saw = p.seat.me.0.saw } };

    ghost invariant = { λ p. (x : ℕ) → In x p.seat.me.0.published → x ≤ p.seat.me.0.saw };
}

impl Mark {
    pub fn new(alloc: Global) -> Result<(Mark, MarkPass), AllocError>
        ensures { IfOk result (λ r. r.1 ≡ record { table = r.0; published = []; saw = 0 }) }
    {
        let (table, seat) = Table::of_words(alloc, &[0], &())?;
        Ok((Mark { table }, MarkPass { seat }))
    }

    /// Publishes the forced number of the engine, whose lock the caller has.
    pub fn publish<P: PageDevice + Drop, L: LogDevice + Drop, B: Level>(
        &self,
        pass: &mut MarkPass,
        kept: &Kept<P, L, B>,
    )
        requires { pass.old.table ≡ self.now }
        ensures table { pass.new.table ≡ pass.old.table }
        ensures published { pass.new.published ≡ pass.old.published ++ kept.now.engine.state.forced ∷ [] }
        ensures saw { (kept.now.engine.state.forced ≤ pass.new.saw) × (pass.old.saw ≤ pass.new.saw) }
    {
        self.table
            .shared
            .fetch_max::<Publish>(&mut pass.seat, 0, kept.forced());
    }

    /// The word, no smaller than what this pass read or published.
    pub fn read(&self, pass: &mut MarkPass) -> u64
        requires { pass.old.table ≡ self.now }
        ensures table { pass.new.table ≡ pass.old.table }
        ensures same { pass.new.published ≡ pass.old.published }
        ensures saw { (pass.new.saw ≡ result) × (pass.old.saw ≤ result) }
        ensures own { (x : ℕ) → In x pass.old.published → x ≤ result }
    {
        self.table.shared.load::<Read>(&mut pass.seat, 0)
    }

    /// Another pass, which has seen as much and published nothing.
    pub fn split(&self, pass: &mut MarkPass) -> MarkPass
        requires { pass.old.table ≡ self.now }
        ensures same { pass.new ≡ pass.old }
        ensures new { result ≡ record { table = pass.old.table; published = []; saw = pass.old.saw } }
    {
        MarkPass {
            seat: self.table.shared.split_seat::<Fork>(&mut pass.seat),
        }
    }
}
