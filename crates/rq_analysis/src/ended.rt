//! Which transactions of the running incarnation have ended, as the records of a log tell it one after the other.
ghost use Rattle.std.specs.Prelude.{◌≡◌, ◌≤◌, ℕ, OnOk, OnErr, IfSome, IfNone, IsTrue, None, []};
ghost use Rattle.std.specs.BTreeMap.{IsOrdered, get};
ghost use Rattle.std.specs.FinSet as set;
ghost use Rattle.std.specs.Ordering.{nat_cmp};
ghost use Rattle.rq_analysis.specs.Growth.{ends};
ghost use Rattle.rq_analysis.specs.LogTables.{ended, ended_after};
ghost use Rattle.rq_analysis.specs.Runs.{AreApart, BeginsFor, EndsFor, IsFree, IsIn, IsLastUpTo};

use rq_model::record::Record;
use rq_model::refusal::NoMemory;
use rq_model::txn::Txn;
use std::alloc::Global;
use std::collections::BTreeMap;
use std::marker::Model;

/// The transactions of the running incarnation that have a Commit or an AbortEnd. Contracts see the set of their counts.
/// It keeps runs of them, of which there are no more than transactions without an end, and one.
#[derive(Drop)]
pub struct EndedTransactions {
    // The last number of each run, by its first.
    runs: BTreeMap<u64, u64>,
}

impl Model for EndedTransactions {
    ghost use Rattle.std.specs.Coded.{coded_ℕ};
    ghost use Rattle.std.specs.FinSet as set;
    ghost use Rattle.rq_analysis.specs.Runs.{AreApart, Counts, counts_in};

    ghost Value = { Counts };

    ghost coded = { set.code coded_ℕ };

    ghost view = { λ e. counts_in e.runs.entries };

    ghost invariant = { λ e. AreApart e.runs };
}

impl EndedTransactions {
    /// Of no record.
    pub fn new(alloc: Global) -> Self
        ensures { result ≡ ended [] }
    {
        EndedTransactions {
            runs: BTreeMap::new(alloc),
        }
    }

    /// Takes the next record.
    ///
    /// # Errors
    /// `NoMemory`, where it ends a transaction: nothing changed.
    pub fn note(&mut self, record: &Record) -> Result<(), NoMemory>
        ensures noted { OnOk result (self.new ≡ ended_after «record».now self.old) }
        ensures err { OnErr result (self.new ≡ self.old) }
        ensures grows { OnErr result (IsTrue (ends «record».now)) }
    {
        match record {
            Record::Commit { txn } | Record::AbortEnd { txn } => self.add(txn.count),
            Record::Restart { .. } | Record::Base { .. } => {
                self.runs.clear();
                Ok(())
            }
            _ => Ok(()),
        }
    }

    /// Whether the transaction has ended, if it is one of the running incarnation.
    pub fn has(&self, txn: Txn) -> bool
        ensures { result ≡ set.contains self.now txn.count }
    {
        first_with(&self.runs, txn.count).is_none()
    }

    fn add(&mut self, count: u64) -> Result<(), NoMemory>
        ensures ok { OnOk result (self.new ≡ set.insert self.old count) }
        ensures err { OnErr result (self.new ≡ self.old) }
    {
        let Some(first) = first_with(&self.runs, count) else {
            return Ok(());
        };
        let last = last_with(&self.runs, count);
        match self.runs.insert(first, last) {
            Ok(_) => {
                if count < last {
                    self.runs.remove(&(count + 1));
                }
                Ok(())
            }
            Err(_) => Err(NoMemory),
        }
    }
}

// Where a run begins that ends just before the number, or the number where none does; None where a run has it.
fn first_with(runs: &BTreeMap<u64, u64>, count: u64) -> Option<u64>
    requires { AreApart runs.now }
    ensures none { IfNone result (IsIn runs.now count) }
    ensures some { IfSome result (λ first. IsFree runs.now count × BeginsFor runs.now count first) }
    ensures ordered { IsOrdered nat_cmp runs.now }
{
    match last_up_to(runs, count) {
        Some((first, last)) => {
            if count <= last {
                return None;
            }
            if last + 1 == count {
                Some(first)
            } else {
                Some(count)
            }
        }
        None => Some(count),
    }
}

// The last run that begins at the number or before it.
fn last_up_to(runs: &BTreeMap<u64, u64>, count: u64) -> Option<(u64, u64)>
    ensures found { IfSome result (λ run. IsLastUpTo runs.now count run.0 run.1) }
    ensures none { IfNone result ((f : ℕ) → f ≤ count → get nat_cmp runs.now f ≡ None) }
    ensures ordered { IsOrdered nat_cmp runs.now }
{
    match runs.range(..=count).next_back() {
        Some((first, last)) => Some((*first, *last)),
        None => None,
    }
}

// Where a run ends that begins just behind the number, or the number where none does.
fn last_with(runs: &BTreeMap<u64, u64>, count: u64) -> u64
    requires { AreApart runs.now }
    ensures within { count ≤ result }
    ensures is { EndsFor runs.now count result }
{
    if count == u64::MAX {
        return count;
    }
    match runs.get(&(count + 1)) {
        Some(last) => *last,
        None => count,
    }
}
