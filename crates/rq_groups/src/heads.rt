//! The transactions that hold ends of a side, each with its newest one, found by a binary search.
ghost use Rattle.std.specs.Prelude.{◌≡◌, ◌<◌, ◌≤◌, length, Some, None, IfOk, IsSome, OnErr, MatchResult, true, false, take, drop};
ghost use Rattle.rq_model.specs.Vocabulary.{In};
ghost use Rattle.rq_groups.specs.Heads.{AreInOrder, IsAt, IsGap, IsTurned, is_before, newest_of};

use rq_model::refusal::NoMemory;
use rq_model::txn::Txn;

/// A transaction that holds an end of a side.
#[derive(Clone, Copy)]
pub(crate) struct Head {
    /// The transaction.
    pub txn: Txn,
    /// The sender of the end that it took last.
    pub newest: u32,
}

// Whether a transaction is of an earlier incarnation, or began earlier in the same one.
fn comes_before(txn: Txn, other: Txn) -> bool
    ensures { result ≡ is_before txn other }
{
    txn.incarnation < other.incarnation
        || txn.incarnation == other.incarnation && txn.count < other.count
}

// The first place of a transaction that is not before this one, or the end.
fn first_from(heads: &[Head], txn: Txn) -> usize
    requires { AreInOrder heads.now }
    ensures bound { result ≤ length heads.now }
    ensures before { (x : Head) → In x (take result heads.now) → is_before x.txn txn ≡ true }
    ensures after { (x : Head) → In x (drop result heads.now) → is_before x.txn txn ≡ false }
{
    heads.partition_point(|head| comes_before(head.txn, txn))
}

// Where the transaction's head stands, or else where it would. That of the transaction that began last, where it holds an
// end, is the last one.
fn find(heads: &[Head], txn: Txn) -> Result<usize, usize>
    requires { AreInOrder heads.now }
    ensures { MatchResult result (λ i. IsAt heads.now txn i) (λ i. IsGap heads.now txn i) }
{
    let end = heads.len();
    if end == 0 || comes_before(heads[end - 1].txn, txn) {
        return Err(end);
    }
    if heads[end - 1].txn == txn {
        return Ok(end - 1);
    }
    find_among(heads, txn)
}

// The same, by halves.
fn find_among(heads: &[Head], txn: Txn) -> Result<usize, usize>
    requires { AreInOrder heads.now }
    ensures { MatchResult result (λ i. IsAt heads.now txn i) (λ i. IsGap heads.now txn i) }
{
    let place = first_from(heads, txn);
    if place >= heads.len() {
        return Err(place);
    }
    if heads[place].txn == txn {
        Ok(place)
    } else {
        Err(place)
    }
}

/// Has this be the transaction's newest end. Answers the one that was before, if there was one.
///
/// # Errors
/// `NoMemory`: nothing changed.
pub(crate) fn put(heads: &mut Vec<Head>, txn: Txn, newest: u32) -> Result<Option<u32>, NoMemory>
    requires { AreInOrder heads.old.items }
    ensures old { IfOk result (λ before. before ≡ newest_of txn heads.old.items) }
    ensures put { IfOk result (λ _. IsTurned txn (Some newest) heads.old.items heads.new.items) }
    ensures err { OnErr result (heads.new.items ≡ heads.old.items) }
{
    match find(heads, txn) {
        Ok(place) => {
            let before = heads[place].newest;
            heads[place] = Head { txn, newest };
            Ok(Some(before))
        }
        Err(place) => match heads.insert(place, Head { txn, newest }) {
            Ok(()) => Ok(None),
            Err(_) => Err(NoMemory),
        },
    }
}

/// Has the transaction hold nothing. Answers its newest end, if there was one.
pub(crate) fn remove(heads: &mut Vec<Head>, txn: Txn) -> Option<u32>
    requires { AreInOrder heads.old.items }
    ensures old { result ≡ newest_of txn heads.old.items }
    ensures removed { IsTurned txn None heads.old.items heads.new.items }
{
    match find(heads, txn) {
        Ok(place) => Some(heads.remove(place).newest),
        Err(_) => None,
    }
}

/// Has the end before its newest one, if there is one, be the newest of a transaction that holds ends.
pub(crate) fn turn_back(heads: &mut Vec<Head>, txn: Txn, before: Option<u32>)
    requires order { AreInOrder heads.old.items }
    requires holds { IsSome (newest_of txn heads.old.items) }
    ensures { IsTurned txn before heads.old.items heads.new.items }
{
    match find(heads, txn) {
        Ok(place) => match before {
            Some(newest) => heads[place] = Head { txn, newest },
            None => {
                heads.remove(place);
            }
        },
        Err(_) => {}
    }
}

/// The transaction's newest end, if it holds one.
pub(crate) fn newest(heads: &[Head], txn: Txn) -> Option<u32>
    requires { AreInOrder heads.now }
    ensures { result ≡ newest_of txn heads.now }
{
    match find(heads, txn) {
        Ok(place) => Some(heads[place].newest),
        Err(_) => None,
    }
}
