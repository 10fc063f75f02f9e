//! What a restart keeps of a log as it goes through it.
ghost use Rattle.std.specs.Prelude.{◌≡◌, ◌↔◌, List, IsTrue, IfOk, IfErr, OnOk, OnErr, [], false};
ghost use Rattle.rq_model.specs.declared.record.Record.{Record as AnyRecord};
ghost use Rattle.rq_model.specs.Bases.{is_base};
ghost use Rattle.rq_model.specs.Incarnations.{IsNext};
ghost use Rattle.rq_analysis.specs.Growth.{grows};
ghost use Rattle.rq_analysis.specs.LogTables.{PutsBack};
ghost use Rattle.rq_analysis.specs.Rules.{CanBeRead, FollowAll};
ghost use Rattle.rq_restart.specs.Found.{IsAnalysisOf, MayComeNext, analysis_after};

use crate::places::Places;
use rq_analysis::{EndedTransactions, LastOperations, OpenWork, PendingUndos, follows};
use rq_model::record::Record;
use rq_model::refusal::Refusal;
use rq_model::txn::Lsn;
use rq_record::spelled_len;
use std::alloc::Global;

/// What the records of a log come to, one after the other.
#[derive(Drop)]
pub(crate) struct Analysis {
    /// Incarnations, and what has no end.
    pub open_work: OpenWork,
    /// What transactions without an end finished, and did not take back.
    pub dues: PendingUndos,
    /// The greatest number of their operations.
    pub numbers: LastOperations,
    /// Which transactions of the running incarnation have ended.
    pub ended: EndedTransactions,
    /// Where what may have to be undone is told.
    pub places: Places,
    /// How many bytes they take.
    pub size: u64,
}

impl Analysis {
    /// Of no record.
    pub(crate) fn new(alloc: Global) -> Self
        ensures { IsAnalysisOf result [] }
    {
        Analysis {
            open_work: OpenWork::new(alloc),
            dues: PendingUndos::new(alloc),
            numbers: LastOperations::new(alloc),
            ended: EndedTransactions::new(alloc),
            places: Places::new(alloc),
            size: 0,
        }
    }

    /// Whether a record may come next: it belongs to the running incarnation, or begins the one behind it, and follows the
    /// rules of a log. The deed in it, if there is one, is read by its level or not. It puts back what stood before the newest
    /// write of its operation, if it is a PageUndo, or not.
    pub(crate) fn may_take(&self, reads: bool, puts_back: bool, record: &Record) -> bool
        ensures next { (log : List AnyRecord) → IsAnalysisOf self.now log → FollowAll log
            → is_base «record».now ≡ false → (IsTrue reads ↔ CanBeRead «record».now)
            → (IsTrue puts_back ↔ PutsBack self.now.open_work «record».now)
            → (IsTrue result ↔ MayComeNext log «record».now) }
        ensures order { IsTrue result → IsNext self.now.open_work.incarnation «record».now }
    {
        self.open_work.is_next(record)
            && follows(
                &self.open_work,
                &self.dues,
                &self.numbers,
                &self.ended,
                reads,
                puts_back,
                record,
            )
    }

    /// Takes the next record, which has this LSN.
    ///
    /// # Errors
    /// `NoMemory`, where a table may grow: nothing changed.
    pub(crate) fn note(&mut self, lsn: Lsn, record: &Record) -> Result<(), Refusal>
        ensures noted { OnOk result (self.new ≡ analysis_after lsn «record».now self.old) }
        ensures same { OnErr result (self.new ≡ self.old) }
        ensures grows { OnErr result (IsTrue (grows «record».now self.old.numbers)) }
        ensures err { IfErr result (λ e. e ≡ Refusal.NoMemory) }
    {
        self.places.note_with(
            lsn,
            record,
            self.size,
            &mut self.dues,
            &mut self.numbers,
            &mut self.open_work,
            &mut self.ended,
        )?;
        self.size = self.size.saturating_add(spelled_len(record) as u64);
        Ok(())
    }
}
