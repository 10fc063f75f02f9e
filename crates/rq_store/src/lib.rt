//! An open store as plain lists: what it comes to, what is so of it, and what each call makes of it.
#![tactic(auto)]

ghost use Rattle.rq_store.specs.Growing.{LeftByItsPages, StoresGrow};
ghost use Rattle.rq_store.specs.Theorems.{BeginningsAreWhole};
ghost use Rattle.rq_store.specs.Worked.{FormattedFit, WorkedStore};

/// Each beginning of a whole log is whole, so that a crash leaves one.
pub fn beginnings_are_whole()
    ensures { BeginningsAreWhole }
{}

/// A worked log in bytes is whole: an abort that a crash stops within an inverse, and the restart after it.
pub fn worked_store()
    ensures { WorkedStore }
{}

/// Pages that were formatted fit the empty log; pages that fit no log; and what a page holds that is no newer than a Base.
pub fn formatted_pages_fit()
    ensures { FormattedFit }
{}

/// A store without tag pages that is given some is left with them, over the same log.
pub fn a_store_grows()
    ensures { StoresGrow }
{}

/// What is left of a store reads the pages of the store alone.
pub fn pages_behind_a_store_do_not_count()
    ensures { LeftByItsPages }
{}
