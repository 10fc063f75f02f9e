//! The records of a log, as contracts see them.
ghost use Rattle.std.specs.Prelude.{◌≡◌, ◌⊎◌, [], ◌∷◌, false};
ghost use Rattle.rq_model.specs.declared.record.Record.TheVariants.{Base};
ghost use Rattle.rq_model.specs.Bases.{is_base, with_next};

use rq_bytes::GhostList;
use rq_model::record::Record;
use rq_model::txn::Lsn;
use std::marker::Model;
use std::snapshot::Snapshot;

/// Records, the newest first: those that are known, and before them so many that a Base stands for.
#[derive(Drop)]
pub(crate) struct Past {
    known: Snapshot<GhostList<Record>>,
    unknown: Lsn,
}

impl Model for Past {
    ghost use Rattle.std.specs.Prelude.{List, ◌++◌};
    ghost use Rattle.rq_model.specs.declared.record.Record.{Record};
    ghost use Rattle.rq_model.specs.Bases.{marks};

    ghost Value = { List Record };

    ghost view = { λ p. p.known.value ++ marks p.unknown };
}

impl Past {
    /// No record.
    pub(crate) fn none() -> Past
        ensures { result ≡ [] }
    {
        Past {
            known: GhostList::empty(),
            unknown: 0,
        }
    }

    /// Adds the first record of a log, or any that is no Base.
    pub(crate) fn add(&mut self, record: &Record)
        requires { (is_base record.now ≡ false) ⊎ (self.old ≡ []) }
        ensures { self.new ≡ with_next record.now self.old }
    {
        GhostList::push(&mut self.known, record);
        if let Record::Base { records, .. } = record {
            self.unknown = *records;
        }
    }

    /// Adds a record that is no Base.
    pub(crate) fn add_plain(&mut self, record: &Record)
        ensures { self.new ≡ record.now ∷ self.old }
    {
        GhostList::push(&mut self.known, record);
    }

    /// Adds a Base behind all, which stands for so many.
    pub(crate) fn put_base(&mut self, records: Lsn, incarnation: u64)
        ensures { self.new ≡ Base records incarnation ∷ self.old }
    {
        let base = Record::Base {
            records,
            incarnation,
        };
        GhostList::push(&mut self.known, &base);
    }
}
