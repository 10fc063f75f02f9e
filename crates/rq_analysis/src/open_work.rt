//! What the records of a log leave open: operations and transactions without an end.
ghost use Rattle.std.specs.Prelude.{◌≡◌, ◌↔◌, ◌<◌, ◌+◌, IsTrue, IfOk, IfErr, IfSome, IfNone, OnOk, OnErr, [], ◌∷◌, Some, true, false, drop, length, reverse, slice_index_or};
ghost use Rattle.std.specs.List.{filter};
ghost use Rattle.rq_model.specs.Incarnations.{IsNext, IsOf};
ghost use Rattle.rq_model.specs.Vocabulary.{first};
ghost use Rattle.rq_analysis.specs.OpenWorkView.{open_work_of, open_work_after, has_sub, lsn_undoable, undoable_by, with_sub, without_newest, without_undoable, without_sub, with_txn, without_txn};
ghost use Rattle.rq_analysis.specs.Pages.{IsUndoneNext, any_undoable, op_less};
ghost use Rattle.rq_analysis.specs.Least.{least_in, lesser_in};
ghost use Rattle.rq_analysis.specs.Growth.{opens};

use rq_model::record::{Record, Slot};
use rq_model::refusal::Refusal;
use rq_model::txn::{Lsn, Sub, Txn};
use std::alloc::Global;
use std::marker::Model;
use std::snapshot::Snapshot;

/// A slot write that may have to be undone.
#[derive(Clone, Copy)]
pub struct UndoableWrite {
    /// The LSN of its record.
    pub lsn: Lsn,
    /// Whose it is.
    pub by: Sub,
    pub page: u32,
    pub slot: u8,
    /// What stood in the slot before.
    pub before: Slot,
}

// What is kept of it. Contracts see all of it.
#[derive(Drop)]
struct KeptWrite {
    lsn: Lsn,
    by: Sub,
    told: Snapshot<UndoableWrite>,
}

impl Model for KeptWrite {
    ghost use Rattle.std.specs.Prelude.{◌≡◌};
    ghost use Rattle.rq_analysis.specs.declared.open_work.UndoableWrite.{UndoableWrite};

    ghost Value = { UndoableWrite };

    ghost view = { λ k. k.told.value };

    ghost invariant = { λ k. (k.lsn ≡ k.told.value.lsn) × (k.by ≡ k.told.value.by) };
}

impl KeptWrite {
    fn of(write: &UndoableWrite) -> KeptWrite
        ensures { result ≡ write.now }
    {
        KeptWrite {
            lsn: write.lsn,
            by: write.by,
            told: Snapshot::of(write),
        }
    }

    fn lsn(&self) -> Lsn
        ensures { result ≡ self.now.lsn }
    {
        self.lsn
    }

    fn by(&self) -> Sub
        ensures { result ≡ self.now.by }
    {
        self.by
    }
}

/// What is undone next of operations that have no end.
#[derive(Clone, Copy, PartialEq, Eq)]
pub enum NextUndo {
    /// The operation is voided: all its writes are undone.
    Void(Sub),
    /// The write whose record has this LSN is undone.
    Write(Lsn),
}

/// What the records of a log leave open, one after the other: the last incarnation, the operations that wrote a slot and
/// have no end, with their writes that are not undone, and the transactions that finished an operation and have no end.
#[derive(Drop)]
pub struct OpenWork {
    incarnation: u64,
    unfinished: Vec<Sub>,
    /// In the order of their records.
    undoable: Vec<KeptWrite>,
    active: Vec<Txn>,
}

impl Model for OpenWork {
    ghost use Rattle.std.specs.Prelude.{reverse};
    ghost use Rattle.rq_analysis.specs.OpenWorkView.{OpenWorkView};

    ghost Value = { OpenWorkView };

    ghost view = { λ h. record {
      incarnation = h.incarnation;
      unfinished = h.unfinished.items;
      undoable = reverse h.undoable.items;
      active = h.active.items;
    } };
}

impl OpenWork {
    /// No record.
    pub fn new(alloc: Global) -> Self
        ensures { result ≡ open_work_of [] }
    {
        OpenWork {
            incarnation: 0,
            unfinished: Vec::new(alloc),
            undoable: Vec::new(alloc),
            active: Vec::new(alloc),
        }
    }

    /// The last incarnation, 0 where there is none.
    pub fn incarnation(&self) -> u64
        ensures { result ≡ self.now.incarnation }
    {
        self.incarnation
    }

    /// Whether every transaction that finished an operation has its end.
    pub fn all_ended(&self) -> bool
        ensures { IsTrue result ↔ (self.now.active ≡ []) }
    {
        self.active.is_empty()
    }

    /// The transactions that finished an operation and have no end.
    pub fn active(&self) -> &[Txn]
        ensures { result.now ≡ self.now.active }
    {
        &self.active
    }

    /// How many operations have no end.
    pub fn unfinished(&self) -> u64
        ensures { result ≡ length self.now.unfinished }
    {
        self.unfinished.len() as u64
    }

    /// Whether the operation wrote a slot and has no end.
    pub fn is_unfinished(&self, sub: Sub) -> bool
        ensures { result ≡ has_sub sub self.now.unfinished }
    {
        self.unfinished.contains(&sub)
    }

    /// The LSN of the newest write of the operation that is not undone.
    pub fn newest_undoable(&self, sub: Sub) -> Option<Lsn>
        ensures { result ≡ lsn_undoable (first (filter (undoable_by sub) self.now.undoable)) }
    {
        match newest_of(&self.undoable, sub) {
            Some(place) => Some(self.undoable[place].lsn()),
            None => None,
        }
    }

    /// Whether a record may come next by its incarnation: it belongs to the running one, or begins the one behind it.
    pub fn is_next(&self, record: &Record) -> bool
        ensures { IsTrue result ↔ IsNext self.now.incarnation «record».now }
    {
        match record {
            Record::Restart { incarnation } => {
                *incarnation > 0 && *incarnation - 1 == self.incarnation
            }
            Record::Base { incarnation, .. } => {
                1 <= self.incarnation && *incarnation == self.incarnation
            }
            Record::PageOp { txn, .. }
            | Record::PageUndo { txn, .. }
            | Record::OpEnd { txn, .. }
            | Record::OpVoid { txn, .. }
            | Record::CompEnd { txn, .. }
            | Record::Commit { txn }
            | Record::AbortEnd { txn } => self.is_ours(txn),
        }
    }

    /// Takes the next record, which has this LSN.
    ///
    /// # Errors
    /// `NoMemory`, where it may open an operation or a transaction: nothing changed.
    pub fn note(&mut self, lsn: Lsn, record: &Record) -> Result<(), Refusal>
        ensures noted { OnOk result (self.new ≡ open_work_after lsn «record».now self.old) }
        ensures same { OnErr result (self.new ≡ self.old) }
        ensures grows { OnErr result (IsTrue (opens «record».now)) }
        ensures err { IfErr result (λ e. e ≡ Refusal.NoMemory) }
    {
        match record {
            Record::Restart { incarnation } => self.incarnation = *incarnation,
            Record::Base { incarnation, .. } => self.begin(*incarnation),
            Record::PageOp {
                txn,
                operation,
                page,
                slot,
                before,
                ..
            } => {
                self.add_write(&UndoableWrite {
                    lsn,
                    by: sub(txn, *operation),
                    page: *page,
                    slot: *slot,
                    before: *before,
                })?;
            }
            Record::PageUndo { txn, operation, .. } => self.drop_newest(sub(txn, *operation)),
            Record::OpEnd { txn, operation, .. } => {
                self.begin_transaction(*txn)?;
                self.end_operation(sub(txn, *operation));
            }
            Record::OpVoid { txn, operation } | Record::CompEnd { txn, operation, .. } => {
                self.end_operation(sub(txn, *operation));
            }
            Record::Commit { txn } | Record::AbortEnd { txn } => self.end_transaction(*txn),
        }
        Ok(())
    }

    /// What is undone next of operations without an end; nothing where all have their end.
    pub fn next_undo(&self) -> Option<NextUndo>
        ensures some { IfSome result (λ next. IsUndoneNext self.now next) }
        ensures none { IfNone result (self.now.unfinished ≡ []) }
    {
        match least_without_writes(&self.unfinished, &self.undoable) {
            Some(least) => Some(NextUndo::Void(least)),
            None => match self.undoable.last() {
                Some(newest) => Some(NextUndo::Write(newest.lsn())),
                None => None,
            },
        }
    }

    // Everything has ended before a Base.
    fn begin(&mut self, incarnation: u64)
        ensures { self.new ≡ record { incarnation = incarnation; unfinished = []; undoable = []; active = [] } }
    {
        self.incarnation = incarnation;
        self.unfinished.clear();
        self.undoable.clear();
        self.active.clear();
    }

    fn is_ours(&self, txn: &Txn) -> bool
        ensures { IsTrue result ↔ IsOf self.now.incarnation (Some txn.now) }
    {
        self.incarnation > 0 && txn.incarnation == self.incarnation
    }

    // A write of an operation, which may be its first.
    fn add_write(&mut self, write: &UndoableWrite) -> Result<(), Refusal>
        ensures ok { OnOk result (self.new ≡ record self.old {
          unfinished = with_sub write.now.by self.old.unfinished;
          undoable = write.now ∷ self.old.undoable;
        }) }
        ensures same { OnErr result (self.new ≡ self.old) }
        ensures err { IfErr result (λ e. e ≡ Refusal.NoMemory) }
    {
        if self.undoable.try_reserve(1).is_err() {
            return Err(Refusal::NoMemory);
        }
        match begin_operation(&mut self.unfinished, write.by) {
            Ok(()) => {
                self.undoable.push_reserved(KeptWrite::of(write));
                Ok(())
            }
            Err(refusal) => Err(refusal),
        }
    }

    // The newest write of the operation is undone.
    fn drop_newest(&mut self, undone: Sub)
        ensures { self.new ≡ record self.old { undoable = without_newest undone self.old.undoable } }
    {
        if let Some(place) = newest_of(&self.undoable, undone) {
            self.undoable.remove(place);
        }
    }

    fn end_operation(&mut self, ended: Sub)
        ensures { self.new ≡ record self.old {
          unfinished = without_sub ended self.old.unfinished;
          undoable = without_undoable ended self.old.undoable;
        } }
    {
        self.unfinished.retain(|sub| ended != *sub);
        self.undoable.retain(|write| write.by() != ended);
    }

    fn begin_transaction(&mut self, txn: Txn) -> Result<(), Refusal>
        ensures ok { OnOk result (self.new ≡ record self.old { active = with_txn txn self.old.active }) }
        ensures same { OnErr result (self.new ≡ self.old) }
        ensures err { IfErr result (λ e. e ≡ Refusal.NoMemory) }
    {
        if self.active.contains(&txn) {
            return Ok(());
        }
        match self.active.push(txn) {
            Ok(()) => Ok(()),
            Err(_) => Err(Refusal::NoMemory),
        }
    }

    fn end_transaction(&mut self, txn: Txn)
        ensures { self.new ≡ record self.old { active = without_txn txn self.old.active } }
    {
        self.active.retain(|open| txn != *open);
    }
}

fn begin_operation(unfinished: &mut Vec<Sub>, begun: Sub) -> Result<(), Refusal>
    ensures ok { OnOk result (unfinished.new.items ≡ with_sub begun unfinished.old.items) }
    ensures same { OnErr result (unfinished.new.items ≡ unfinished.old.items) }
    ensures err { IfErr result (λ e. e ≡ Refusal.NoMemory) }
{
    if unfinished.contains(&begun) {
        return Ok(());
    }
    match unfinished.push(begun) {
        Ok(()) => Ok(()),
        Err(_) => Err(Refusal::NoMemory),
    }
}

/// A transaction's operation, by its number.
pub fn sub(txn: &Txn, operation: u64) -> Sub
    ensures { result ≡ record { txn = txn.now; number = operation } }
{
    Sub {
        txn: *txn,
        number: operation,
    }
}

// The place of the newest of these writes that is the operation's.
fn newest_of(undoable: &[KeptWrite], sub: Sub) -> Option<usize>
    ensures place { IfSome result (λ i. i < length undoable.now) }
    ensures own { IfSome result (λ i. (d : UndoableWrite) → undoable_by sub (slice_index_or undoable.now i d) ≡ true) }
    ensures newest { IfSome result (λ i. any_undoable sub (drop (i + 1) undoable.now) ≡ false) }
    ensures none { IfNone result (any_undoable sub undoable.now ≡ false) }
{
    let mut place = undoable.len();
    while place > 0 {
        place -= 1;
        if undoable[place].by() == sub {
            return Some(place);
        }
    }
    None
}

// Whether one of these writes is the operation's.
fn has_undoable(undoable: &[KeptWrite], sub: Sub) -> bool
    ensures { result ≡ any_undoable sub undoable.now }
{
    newest_of(undoable, sub).is_some()
}

// Of these operations the least of which none of these writes is.
fn least_without_writes(unfinished: &[Sub], undoable: &[KeptWrite]) -> Option<Sub>
    ensures { result ≡ least_in undoable.now unfinished.now }
{
    let mut place = unfinished.len();
    let mut least = None;
    while place > 0 {
        place -= 1;
        let sub = unfinished[place];
        if !has_undoable(undoable, sub) {
            least = Some(lesser(sub, least));
        }
    }
    least
}

fn lesser(sub: Sub, least: Option<Sub>) -> Sub
    ensures { result ≡ lesser_in sub least }
{
    match least {
        None => sub,
        Some(other) => { if is_less(other, sub) { other } else { sub } }
    }
}

fn is_less(a: Sub, b: Sub) -> bool
    ensures { result ≡ op_less a b }
{
    a.txn.incarnation < b.txn.incarnation
        || (a.txn.incarnation == b.txn.incarnation && a.txn.count < b.txn.count)
        || (a.txn == b.txn && a.number < b.number)
}
