//! Slots of transactions, found by their counts.
ghost use Rattle.std.specs.Prelude.{ℕ, ◌<◌, ◌≤◌, length, slice_index_or};
ghost use Rattle.rq_txn.specs.Places.{IsRising, IsTable, KeyOf, PlaceOf};

use crate::Transaction;
use rq_model::txn::Txn;
use slab::Slab;

/// Where a transaction stands.
#[derive(Clone, Copy)]
pub struct Place {
    /// The transaction's count.
    pub count: u64,
    /// The key of its slot.
    pub key: usize,
}

/// The first place of at least this count, or the end. That of the transaction that began last is the last one.
fn first_from(places: &[Place], count: u64) -> usize
    requires { IsRising places.now }
    ensures bound { result ≤ length places.now }
    ensures below { (k : ℕ) (d : Place) → k < result → (slice_index_or places.now k d).count < count }
    ensures above { (k : ℕ) (d : Place) → result ≤ k → k < length places.now
        → count ≤ (slice_index_or places.now k d).count }
{
    let end = places.len();
    if end == 0 || places[end - 1].count < count {
        return end;
    }
    if places[end - 1].count == count {
        return end - 1;
    }
    first_among(places, count)
}

// The same, by halves.
fn first_among(places: &[Place], count: u64) -> usize
    requires { IsRising places.now }
    ensures bound { result ≤ length places.now }
    ensures below { (k : ℕ) (d : Place) → k < result → (slice_index_or places.now k d).count < count }
    ensures above { (k : ℕ) (d : Place) → result ≤ k → k < length places.now
        → count ≤ (slice_index_or places.now k d).count }
{
    places.partition_point(|place| place.count < count)
}

/// Where a transaction's place stands.
pub fn place_of(rows: &Slab<Transaction>, places: &[Place], txn: Txn) -> Option<usize>
    requires { IsTable rows.now places.now }
    ensures { PlaceOf rows.now places.now txn result }
{
    let place = first_from(places, txn.count);
    if place >= places.len() {
        return None;
    }
    if places[place].count != txn.count {
        return None;
    }
    if rows[places[place].key].txn == txn {
        Some(place)
    } else {
        None
    }
}

/// The key of a transaction's slot.
pub fn key_of(rows: &Slab<Transaction>, places: &[Place], txn: Txn) -> Option<usize>
    requires { IsTable rows.now places.now }
    ensures { KeyOf rows.now places.now txn result }
{
    let place = place_of(rows, places, txn)?;
    Some(places[place].key)
}
