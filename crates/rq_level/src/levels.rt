//! All levels of a store.
ghost use Rattle.std.specs.Prelude.{◌≡◌, ℕ, ◌<◌, ◌≤◌, length, map, option_map, slice_set};
ghost use Rattle.rq_model.specs.Deeds.{deed_by};
ghost use Rattle.rq_model.specs.Vocabulary.{is_some};
ghost use Rattle.rq_level.specs.LevelState.{LevelState};
ghost use Rattle.rq_level.specs.Writes.{answer_of, with_plan};
ghost use Rattle.rq_level.specs.Meaning.{meaning_of, wish, AreOf, redo_of, AppliesOnce, AreTold, IsRedo, KeepsNothingAt, NotesNothing, kept_at, CountOn};

use crate::level::{Level, Want};
use crate::op::Op;
use crate::slots::{PageSet, Slots};
use crate::writes::{Outcome, Plan};
use rq_model::record::{Record, Slot};
use rq_model::refusal::Refusal;
use rq_model::txn::Lsn;
use rq_page::addr::Addr;
use rq_page::page::Page;
use std::marker::Model;

/// The levels of a store, numbered from 0 in order. Contracts see what each keeps.
#[derive(Drop)]
pub struct Levels<B: Level> {
    all: Vec<B>,
    // How many of the first keep nothing but the sizes.
    idle: usize,
    // From this number on they again keep nothing but the sizes.
    end: usize,
}

impl<B: Level> Model for Levels<B> {
    ghost use Rattle.std.specs.Prelude.{◌≡◌, ◌<◌, ◌≤◌, ℕ, List, length, map, slice_index_or};
    ghost use Rattle.rq_level.specs.LevelState.{LevelState};
    ghost use Rattle.rq_level.specs.Meaning.{NotesNothing, meaning_of};

    ghost Value = { List LevelState };

    ghost view = { λ a. map (λ b. B.kept b) a.all.items };

    ghost invariant = { λ a. ((i : ℕ) (d : _) → i < length a.all.items → B.level (slice_index_or a.all.items i d) ≡ i)
        × ((i : ℕ) → i < a.idle → NotesNothing (meaning_of i))
        × (a.end ≤ length a.all.items)
        × ((i : ℕ) → a.end ≤ i → i < length a.all.items → NotesNothing (meaning_of i)) };
}

impl<B: Level> Levels<B> {
    /// The levels in the order of their numbers.
    pub fn new(all: Vec<B>) -> Levels<B>
        requires { CountOn 0 (map (λ b. B.level b) all.items) }
        ensures { result ≡ map (λ b. B.kept b) all.items }
    {
        let idle = idle_of(&all);
        let end = end_of(&all);
        Levels { all, idle, end }
    }

    /// How many there are.
    pub fn len(&self) -> usize
        ensures { result ≡ length self.now }
    {
        self.all.len()
    }

    /// Whether the bytes are a deed of the level.
    pub fn reads(&self, level: usize, deed: &[u8]) -> bool
        requires { level < length self.now }
        ensures { result ≡ is_some (deed_by level deed.now) }
    {
        self.all[level].reads(deed)
    }

    /// What the end of an operation of the level answers, by the bytes of its deed; none where they are no deed.
    #[inline(always)]
    pub fn outcome(&self, level: usize, deed: &[u8]) -> Option<Outcome>
        requires { level < length self.now }
        ensures { result ≡ option_map answer_of (deed_by level deed.now) }
    {
        self.all[level].outcome(deed)
    }

    /// What the level needs to see next.
    pub fn want(&self, level: usize, op: &Op, given: &Slots) -> Want
        requires level { level < length self.now }
        requires given { AreOf (kept_at self.now level).sizes given.now }
        ensures { result ≡ wish ((meaning_of level).want (kept_at self.now level).sizes op.now given.now) }
    {
        self.all[level].want(op, given)
    }

    /// Plans an operation that is to be done.
    #[inline(always)]
    pub fn plan(
        &mut self,
        level: usize,
        op: &Op,
        given: &Slots,
        latched: &PageSet,
        plan: &mut Plan,
    ) -> Result<(), Refusal>
        requires level { level < length self.old }
        requires given { AreOf (kept_at self.old level).sizes given.now }
        ensures answer { (meaning_of level).plans (kept_at self.old level) op.now given.now latched.now.pages (with_plan plan.new result) (kept_at self.new level) }
        ensures others { self.new ≡ slice_set self.old level (kept_at self.new level) }
    {
        let it = &mut self.all[level];
        it.plan(op, given, latched, plan)
    }

    /// Plans what takes back the operation that the record tells.
    pub fn undo(
        &mut self,
        level: usize,
        record: &Record,
        given: &Slots,
        latched: &PageSet,
        plan: &mut Plan,
    ) -> Result<(), Refusal>
        requires level { level < length self.old }
        requires given { AreOf (kept_at self.old level).sizes given.now }
        ensures answer { (meaning_of level).undoes (kept_at self.old level) «record».now given.now latched.now.pages (with_plan plan.new result) (kept_at self.new level) }
        ensures others { self.new ≡ slice_set self.old level (kept_at self.new level) }
    {
        let it = &mut self.all[level];
        it.undo(record, given, latched, plan)
    }

    /// Has the level apply a record to its page, where the page is older.
    pub fn redo(&mut self, level: usize, page: &mut Page, lsn: Lsn, record: &Record) -> bool
        requires level { level < length self.old }
        requires redo { IsRedo (redo_of «record».now) }
        ensures kept { self.new ≡ self.old }
        ensures page { AppliesOnce (redo_of «record».now) page.old lsn result page.new }
    {
        let it = &mut self.all[level];
        it.redo(page, lsn, record)
    }

    /// Tells what a slot holds to each level that keeps anything of it, in the order of their numbers.
    pub fn noted(&mut self, at: Addr, bytes: &Slot)
        ensures { AreTold at bytes.now self.old self.new }
    {
        let (first, end) = self.keepers(at);
        for level in first..end {
            self.tell(level, at, bytes);
        }
    }

    // The first level that may keep anything of the slot, and the number behind the last.
    // Any level may keep what slot 1 of the first page tells.
    fn keepers(&self, at: Addr) -> (usize, usize)
        ensures within { result.1 ≤ length self.now }
        ensures before { (i : ℕ) → i < result.0 → KeepsNothingAt (meaning_of i) at }
        ensures after { (i : ℕ) → result.1 ≤ i → i < length self.now → KeepsNothingAt (meaning_of i) at }
    {
        if at.number() == 1 {
            (0, self.all.len())
        } else {
            (self.idle, self.end)
        }
    }

    // Tells one of them.
    fn tell(&mut self, level: usize, at: Addr, bytes: &Slot)
        requires { level < length self.old }
        ensures { self.new ≡ slice_set self.old level ((meaning_of level).note (kept_at self.old level) at bytes.now) }
    {
        let it = &mut self.all[level];
        it.noted(at, bytes);
    }
}

// How many of the first levels keep nothing but the sizes.
fn idle_of<B: Level>(all: &[B]) -> usize
    requires { CountOn 0 (map (λ b. B.level b) all.now) }
    ensures { (i : ℕ) → i < result → NotesNothing (meaning_of i) }
{
    for number in 0..all.len() {
        if all[number].keeps() {
            return number;
        }
    }
    all.len()
}

// The number from which on no level keeps anything but the sizes.
fn end_of<B: Level>(all: &[B]) -> usize
    requires { CountOn 0 (map (λ b. B.level b) all.now) }
    ensures within { result ≤ length all.now }
    ensures idle { (i : ℕ) → result ≤ i → i < length all.now → NotesNothing (meaning_of i) }
{
    let mut end = 0;
    for number in 0..all.len() {
        if all[number].keeps() {
            end = number + 1;
        }
    }
    end
}
