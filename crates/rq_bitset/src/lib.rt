//! Sets of places, of which the next one is found without a look at each.
#![tactic(auto)]

ghost use Rattle.std.specs.Prelude.{◌≡◌, ◌≢◌, ℕ, ◌+◌, ◌-◌, ◌*◌, ◌/◌, ◌<◌, ◌≤◌, ◌^◌, length, slice_index, cond, nat_eq, IfOk};
ghost use Rattle.std.specs.Int.{bit_at};
ghost use Rattle.rq_bitset.specs.Flags.{flag_at, IsNextApart, IsNextApartInWord, IsNextFlag, IsNextInWord, OthersStay};

mod bit_set;

pub use crate::bit_set::BitSet;
use rq_model::refusal::NoMemory;
use std::alloc::Global;
use std::marker::Model;

/// A set of places below a bound, by a flag for each. Its memory is taken when it is made. Contracts see the words of
/// the flags, 64 to a word.
#[derive(Drop)]
pub struct Index {
    // A flag for each place.
    flags: Vec<u64>,
    // A flag for each word of these in which one is set.
    words: Vec<u64>,
}

impl Model for Index {
    ghost use Rattle.std.specs.Prelude.{ℕ, List};
    ghost use Rattle.rq_bitset.specs.Flags.{IsSummed};

    ghost Value = { List ℕ };

    ghost view = { λ i. i.flags.items };

    ghost invariant = { λ i. IsSummed i.words.items i.flags.items };
}

impl Index {
    /// No place, of as many.
    ///
    /// # Errors
    /// `NoMemory`.
    pub fn new(alloc: Global, places: u32) -> Result<Index, NoMemory>
        ensures room { IfOk result (λ index. places ≤ 64 * length index) }
        ensures none { IfOk result (λ index. (k : ℕ) → flag_at index k ≡ 0) }
    {
        let flags = unset(alloc, places as usize)?;
        let words = unset(alloc, flags.len())?;
        Ok(Index { flags, words })
    }

    /// Has a place in the set, or out of it.
    pub fn put(&mut self, place: usize, present: bool)
        requires { place < 64 * length self.old }
        ensures put { flag_at self.new place ≡ cond present 1 0 }
        ensures others { OthersStay place self.old self.new }
        ensures same { length self.new ≡ length self.old }
    {
        if present {
            self.insert(place);
        } else {
            self.remove(place);
        }
    }

    /// Whether a place is in the set. None is beyond the bound.
    #[tactic(auto, unfolding(crate::specs::Flags::flag_at))]
    pub fn has(&self, place: usize) -> bool
        ensures { result ≡ nat_eq (flag_at self.now place) 1 }
    {
        (word_of(&self.flags, place / 64) >> (place % 64)) % 2 == 1
    }

    // Puts a place in.
    fn insert(&mut self, place: usize)
        requires { place < 64 * length self.old }
        ensures set { flag_at self.new place ≡ 1 }
        ensures others { OthersStay place self.old self.new }
        ensures same { length self.new ≡ length self.old }
    {
        set_flag(&mut self.flags, place);
        set_flag(&mut self.words, place / 64);
    }

    // Takes a place out.
    fn remove(&mut self, place: usize)
        requires { place < 64 * length self.old }
        ensures clear { flag_at self.new place ≡ 0 }
        ensures others { OthersStay place self.old self.new }
        ensures same { length self.new ≡ length self.old }
    {
        clear_flag(&mut self.flags, place);
        if self.flags[place / 64] == 0 {
            clear_flag(&mut self.words, place / 64);
        }
    }

    /// The least place of the set at or after this one.
    pub fn next(&self, from: usize) -> Option<usize>
        ensures { IsNextFlag self.now from result }
    {
        if let Some(place) = next_in_word(&self.flags, from) {
            return Some(place);
        }
        match next_flag(&self.words, from / 64 + 1) {
            Some(word) => Some(word * 64 + lowest(self.flags[word])),
            None => None,
        }
    }

    /// The least place of the set at or after this one that is none of the other set.
    pub fn next_apart(&self, others: &Index, from: usize) -> Option<usize>
        ensures { IsNextApart self.now others.now from result }
    {
        if let Some(place) = next_apart_in_word(&self.flags, &others.flags, from) {
            return Some(place);
        }
        let mut word = from / 64 + 1;
        while word < self.flags.len() {
            if let Some(place) = next_apart_in_word(&self.flags, &others.flags, word * 64) {
                return Some(place);
            }
            if self.flags[word] != 0 {
                word += 1;
            } else if let Some(next) = next_flag(&self.words, word + 1) {
                word = next;
            } else {
                return None;
            }
        }
        None
    }
}

// Words of flags that are not set, for as many places.
fn unset(alloc: Global, places: usize) -> Result<Vec<u64>, NoMemory>
    ensures room { IfOk result (λ words. places < 64 * length words.items) }
    ensures few { IfOk result (λ words. length words.items ≡ places / 64 + 1) }
    ensures empty { IfOk result (λ words. (w : ℕ) → slice_index words.items w ≡ 0) }
    ensures none { IfOk result (λ words. (k : ℕ) → flag_at words.items k ≡ 0) }
{
    match vec![in alloc; 0; places / 64 + 1] {
        Ok(words) => Ok(words),
        Err(_) => Err(NoMemory),
    }
}

// Sets a flag.
fn set_flag(words: &mut Vec<u64>, place: usize)
    requires { place < 64 * length words.old.items }
    ensures set { flag_at words.new.items place ≡ 1 }
    ensures others { OthersStay place words.old.items words.new.items }
    ensures apart { (w : ℕ) → w ≢ place / 64 → slice_index words.new.items w ≡ slice_index words.old.items w }
    ensures same { length words.new.items ≡ length words.old.items }
{
    let word = words[place / 64];
    words[place / 64] = word | 1 << (place % 64);
}

// Clears a flag.
fn clear_flag(words: &mut Vec<u64>, place: usize)
    requires { place < 64 * length words.old.items }
    ensures clear { flag_at words.new.items place ≡ 0 }
    ensures others { OthersStay place words.old.items words.new.items }
    ensures apart { (w : ℕ) → w ≢ place / 64 → slice_index words.new.items w ≡ slice_index words.old.items w }
    ensures fewer { slice_index words.new.items (place / 64) ≤ slice_index words.old.items (place / 64) }
    ensures same { length words.new.items ≡ length words.old.items }
{
    let word = words[place / 64];
    words[place / 64] = word & !(1 << (place % 64));
}

// The least flag that is set at or after this one, in its word.
fn next_in_word(words: &[u64], from: usize) -> Option<usize>
    requires { length words.now < 2 ^ 32 }
    ensures { IsNextInWord words.now from result }
{
    if from / 64 >= words.len() {
        return None;
    }
    let rest = words[from / 64] >> (from % 64);
    if rest == 0 {
        return None;
    }
    Some(from + lowest(rest))
}

// The least flag at or after this one that is set here and not in the others, in its word.
fn next_apart_in_word(words: &[u64], others: &[u64], from: usize) -> Option<usize>
    requires { length words.now < 2 ^ 32 }
    ensures { IsNextApartInWord words.now others.now from result }
{
    if from / 64 >= words.len() {
        return None;
    }
    let rest = apart(words[from / 64], word_of(others, from / 64)) >> (from % 64);
    if rest == 0 {
        return None;
    }
    Some(from + lowest(rest))
}

// The bits that are set here and not in the other word.
fn apart(word: u64, other: u64) -> u64
    ensures { (i : ℕ) → bit_at result i ≡ bit_at word i - bit_at other i }
{
    word & !other
}

// A word of flags; none is set beyond the end.
fn word_of(words: &[u64], word: usize) -> u64
    ensures { result ≡ slice_index words.now word }
{
    words.get(word).copied().unwrap_or(0)
}

// The least flag that is set at or after this one.
fn next_flag(words: &[u64], from: usize) -> Option<usize>
    requires { length words.now < 2 ^ 32 }
    ensures { IsNextFlag words.now from result }
{
    if let Some(place) = next_in_word(words, from) {
        return Some(place);
    }
    for word in from / 64 + 1..words.len() {
        if words[word] != 0 {
            return Some(word * 64 + lowest(words[word]));
        }
    }
    None
}

// The place of the lowest bit that is set.
fn lowest(word: u64) -> usize
    requires { 1 ≤ word }
    ensures within { result < 64 }
    ensures set { bit_at word result ≡ 1 }
    ensures first { (i : ℕ) → i < result → bit_at word i ≡ 0 }
{
    word.trailing_zeros() as usize
}
