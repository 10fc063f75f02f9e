//! Bit sets: which of a number of places are marked.
ghost use Rattle.std.specs.Prelude.{◌≡◌, ◌<◌, IfOk, replicate, slice_set, length, false};
ghost use Rattle.rq_bitset.specs.Bits.{is_set, IsNextBit};

use crate::Index;
use rq_model::refusal::NoMemory;
use std::alloc::Global;
use std::marker::Model;

/// Which of a number of places are marked: a bit for each, and the lowest one found without a look at each. Its memory is
/// taken when it is made. Contracts see of each place whether it is marked.
#[derive(Drop)]
pub struct BitSet {
    places: u32,
    index: Index,
}

impl Model for BitSet {
    ghost use Rattle.std.specs.Prelude.{List, Bool, ◌*◌, ◌≤◌, length};
    ghost use Rattle.rq_bitset.specs.Bits.{bits_from};

    ghost Value = { List Bool };

    ghost view = { λ m. bits_from m.index 0 m.places };

    ghost invariant = { λ m. m.places ≤ 64 * length m.index };
}

impl BitSet {
    /// So many places, none of them marked.
    ///
    /// # Errors
    /// `NoMemory`.
    pub fn new(alloc: Global, places: u32) -> Result<BitSet, NoMemory>
        ensures { IfOk result (λ marks. marks ≡ replicate places false) }
    {
        match Index::new(alloc, places) {
            Ok(index) => Ok(BitSet { places, index }),
            Err(NoMemory) => Err(NoMemory),
        }
    }

    /// Whether a place is marked. None is beyond the last.
    pub fn has(&self, place: u32) -> bool
        ensures { result ≡ is_set self.now place }
    {
        if place < self.places {
            self.index.has(place as usize)
        } else {
            false
        }
    }

    /// Marks a place, or takes its mark away. Nothing changes beyond the last place.
    pub fn put(&mut self, place: u32, marked: bool)
        ensures { self.new ≡ slice_set self.old place marked }
    {
        if place < self.places {
            self.index.put(place as usize, marked);
        }
    }

    /// The lowest place at or after this one that is marked.
    pub fn next(&self, from: u32) -> Option<u32>
        ensures { IsNextBit self.now from result }
    {
        match self.index.next(from as usize) {
            Some(place) => {
                if place < self.places as usize {
                    Some(place as u32)
                } else {
                    None
                }
            }
            None => None,
        }
    }
}
