//! One of the three levels of a store.
ghost use Rattle.std.specs.Prelude.{◌≡◌, IfOk, length};
ghost use Rattle.rq_level.specs.Meaning.{level_count};

use rq_chain::ChainLevel;
use rq_level::{Level, Op, Outcome, PageSet, Plan, Slots, Want};
use rq_model::record::{Record, Slot};
use rq_model::refusal::Refusal;
use rq_model::txn::Lsn;
use rq_page::addr::Addr;
use rq_page::page::Page;
use rq_pageops::PageLevel;
use rq_planner::StoreLevels;
use rq_tags::TagLevel;
use std::alloc::{AllocError, Global};

/// One of the three levels of a store.
#[derive(Drop)]
pub enum StoreLevel {
    /// That of single slots.
    Slots(PageLevel),
    /// That of chains.
    Chains(ChainLevel),
    /// That of tags.
    Tags(TagLevel),
}

impl Level for StoreLevel {
    ghost use Rattle.rq_levels.specs.Words.{kept_of, number_of};

    ghost level = { λ l. number_of l };

    ghost kept = { λ l. kept_of l };

    fn number(&self) -> u8 {
        match self {
            StoreLevel::Slots(level) => level.number(),
            StoreLevel::Chains(level) => level.number(),
            StoreLevel::Tags(level) => level.number(),
        }
    }

    fn reads(&self, deed: &[u8]) -> bool {
        match self {
            StoreLevel::Slots(level) => level.reads(deed),
            StoreLevel::Chains(level) => level.reads(deed),
            StoreLevel::Tags(level) => level.reads(deed),
        }
    }

    fn outcome(&self, deed: &[u8]) -> Option<Outcome> {
        match self {
            StoreLevel::Slots(level) => level.outcome(deed),
            StoreLevel::Chains(level) => level.outcome(deed),
            StoreLevel::Tags(level) => level.outcome(deed),
        }
    }

    fn keeps(&self) -> bool {
        match self {
            StoreLevel::Slots(level) => level.keeps(),
            StoreLevel::Chains(level) => level.keeps(),
            StoreLevel::Tags(level) => level.keeps(),
        }
    }

    fn want(&self, op: &Op, given: &Slots) -> Want {
        match self {
            StoreLevel::Slots(level) => level.want(op, given),
            StoreLevel::Chains(level) => level.want(op, given),
            StoreLevel::Tags(level) => level.want(op, given),
        }
    }

    #[inline(always)]
    fn plan(
        &mut self,
        op: &Op,
        given: &Slots,
        latched: &PageSet,
        plan: &mut Plan,
    ) -> Result<(), Refusal> {
        match self {
            StoreLevel::Slots(level) => level.plan(op, given, latched, plan),
            StoreLevel::Chains(level) => level.plan(op, given, latched, plan),
            StoreLevel::Tags(level) => level.plan(op, given, latched, plan),
        }
    }

    fn undo(
        &mut self,
        record: &Record,
        given: &Slots,
        latched: &PageSet,
        plan: &mut Plan,
    ) -> Result<(), Refusal> {
        match self {
            StoreLevel::Slots(level) => level.undo(record, given, latched, plan),
            StoreLevel::Chains(level) => level.undo(record, given, latched, plan),
            StoreLevel::Tags(level) => level.undo(record, given, latched, plan),
        }
    }

    fn redo(&mut self, page: &mut Page, lsn: Lsn, record: &Record) -> bool {
        match self {
            StoreLevel::Slots(level) => level.redo(page, lsn, record),
            StoreLevel::Chains(level) => level.redo(page, lsn, record),
            StoreLevel::Tags(level) => level.redo(page, lsn, record),
        }
    }

    fn noted(&mut self, at: Addr, bytes: &Slot) {
        match self {
            StoreLevel::Slots(level) => level.noted(at, bytes),
            StoreLevel::Chains(level) => level.noted(at, bytes),
            StoreLevel::Tags(level) => level.noted(at, bytes),
        }
    }
}

/// Levels that may be handed in for any store, told of nothing yet.
///
/// # Errors
/// Where memory is wanting.
pub fn levels_of_store(alloc: Global) -> Result<StoreLevels<StoreLevel>, AllocError>
    ensures { IfOk result (λ handed. length handed.levels ≡ level_count) }
{
    let Ok(chains) = ChainLevel::new(alloc) else {
        return Err(AllocError);
    };
    let mut levels = Vec::with_capacity(alloc, 3)?;
    levels.push(StoreLevel::Slots(PageLevel))?;
    levels.push(StoreLevel::Chains(chains))?;
    levels.push(StoreLevel::Tags(TagLevel::new()))?;
    Ok(StoreLevels::new(levels))
}

/// So many sets of them.
///
/// # Errors
/// Where memory is wanting.
pub fn sets_of_levels(
    alloc: Global,
    count: usize,
) -> Result<Vec<StoreLevels<StoreLevel>>, AllocError>
    ensures { IfOk result (λ sets. length sets.items ≡ count) }
{
    let mut sets = Vec::new(alloc);
    for _ in 0..count {
        sets.push(levels_of_store(alloc)?)?;
    }
    Ok(sets)
}
