//! Worked cases for the words that contracts of several crates use: of each, what meets it and what it rules out.
#![tactic(auto)]

ghost use Rattle.rq_cases.specs.Cases.{Cases};
ghost use Rattle.rq_cases.specs.Courses.{NoneIsJudged};
ghost use Rattle.rq_cases.specs.Crashes.{CrashesAreJudged};
ghost use Rattle.rq_cases.specs.Devices.{DevicesAreJudged};
ghost use Rattle.rq_cases.specs.Histories.{HistoriesGoOn};
ghost use Rattle.rq_cases.specs.Leveled.{LevelsAreJudged, WrongPlansAreRefused};
ghost use Rattle.rq_cases.specs.Migrations.{MigrationsAreJudged};
ghost use Rattle.rq_cases.specs.Openings.{OpeningsAreJudged};
ghost use Rattle.rq_cases.specs.Worlds.{HeadlinesAreJudged};
ghost use Rattle.rq_cases.specs.WrongLevels.{WrongLevels};

use rq_disk::{LogDevice, PageDevice};
use rq_model::laws::{
    acknowledged_stay, checkpoint_crash_goes_on, crash_goes_on, first_in_first_out, growth_goes_on,
    restart_goes_on, shown_is_committed, shut_crash_goes_on,
};
use rq_restart::laws::{one_log, one_size};

/// What a format has written, and what bytes tell.
pub fn devices_are_judged()
    ensures { DevicesAreJudged }
{
    one_log();
    one_size();
}

/// What goes on with a history whose store is not open, or got tag pages. Crashes and restarts may come there, and some may
/// not.
pub fn histories_go_on()
    ensures { HistoriesGoOn }
{
    checkpoint_crash_goes_on();
    growth_goes_on();
    restart_goes_on();
    shut_crash_goes_on();
}

/// The headline of two courses, one that ends open and one with a crash; and devices and answers that it rules out.
pub fn headlines_are_judged()
    ensures { HeadlinesAreJudged }
{
    first_in_first_out();
    acknowledged_stay();
    crash_goes_on();
    checkpoint_crash_goes_on();
    growth_goes_on();
    shut_crash_goes_on();
}

/// What gives a message to whom, none, and what is refused where nothing is given.
pub fn none_is_judged()
    ensures { NoneIsJudged }
{
    shown_is_committed();
}

/// Crashes that a course may meet, by what comes, and those that it may not.
pub fn crashes_are_judged()
    ensures { CrashesAreJudged }
{
    crash_goes_on();
    checkpoint_crash_goes_on();
}

/// Histories with migrations: each legal or refused as it should be, what the store has then, and what a crash may leave.
pub fn migrations_are_judged()
    ensures { MigrationsAreJudged }
{}

/// Plans of levels as they should be: sends and receives, what takes each back, a mark, and a slot write that is taken back.
/// Of each level there are wrong ones, too.
pub fn levels_are_judged()
    ensures right { LevelsAreJudged }
    ensures wrong { WrongPlansAreRefused }
{}

/// Levels that are right but have one wrong answer more, ask or note otherwise, or are ready otherwise, and a law that refuses
/// each.
pub fn wrong_levels_are_refused()
    ensures { WrongLevels }
{}

/// Stores that no restart opens, whatever the devices are.
pub fn openings_are_judged<P: PageDevice, L: LogDevice>()
    ensures { OpeningsAreJudged P.PageDevice L.LogDevice }
{}

/// The worked cases that rest on no law: each field says what of.
pub fn worked_cases()
    ensures { Cases }
{}
