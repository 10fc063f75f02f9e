//! The headline of every history with legal replies, over definitions alone; and worked courses.
ghost use Rattle.std.specs.Prelude.{List};
ghost use Rattle.rq_model.specs.History.{Entry};
ghost use Rattle.rq_model.specs.Legal.{IsLegal};
ghost use Rattle.rq_model.specs.Tests.{Size};
ghost use Rattle.rq_model.specs.Promises.{AcknowledgedStay, FifoThroughout, MigrationsStay, NothingBehindClose};
ghost use Rattle.rq_core.specs.Always.{ContentIsTheRest, NoneIsExact};
ghost use Rattle.rq_core.specs.Worked.{AreJudged};
ghost use Rattle.rq_page.specs.Sizes.{Sizes};
ghost use Rattle.rq_disk.specs.declared.mem_log.MemLog.{MemLog};
ghost use Rattle.rq_disk.specs.declared.mem_pages.MemPages.{MemPages};
ghost use Rattle.rq_core.specs.Happenings.{Course};
ghost use Rattle.rq_core.specs.Runs.{IsHeadline, IsRun, Led, MemWorld, Ran};
ghost use Rattle.rq_core.specs.Judged.{AreRunsJudged};

use rq_model::laws::{
    acknowledged_stay, checkpoint_crash_goes_on, crash_goes_on, first_in_first_out, growth_goes_on,
    migrations_stay, nothing_behind_close, restart_goes_on, shown_is_committed, shut_crash_goes_on,
    still_store_refuses,
};
use rq_restart::laws::{one_log, one_size};

/// Of every history with legal replies, and with crashes and restarts as they may come. At every place of it, what
/// committed transactions received from each sender is a beginning of its committed sends, in order, each once. The
/// content that is shown is the rest. Acknowledged commits survive. A committed close ends its sender. An answered
/// migration stays. None means that no free group holds a message, both ways.
pub fn always()
    ensures order { (size : Size) (history : List Entry) → IsLegal size history → FifoThroughout history }
    ensures rest { (size : Size) → ContentIsTheRest size }
    ensures acknowledged { (size : Size) → AcknowledgedStay size }
    ensures close { (size : Size) → NothingBehindClose size }
    ensures migrations { (size : Size) → MigrationsStay size }
    ensures none { (size : Size) → NoneIsExact size }
{
    first_in_first_out();
    shown_is_committed();
    acknowledged_stay();
    nothing_behind_close();
    migrations_stay();
}

/// Worked courses. One with three crashes, a stop in a call, a stop in a restart, and a refused restart tells a legal
/// history. The rest is what tells none.
pub fn courses_are_judged()
    ensures { AreJudged }
{}

/// Of every run. Its answers tell a history with legal replies, and all that the headline says. Each store that it
/// meets is sound, and stands where the history ends that led to it.
pub fn a_run_is_told()
    ensures met { (z : Sizes) (c : Course) (w : MemWorld) → Led z c w → Ran z c w }
    ensures headline { (z : Sizes) (c : Course) (pages : MemPages) (log : MemLog) → IsRun z c pages log
        → IsHeadline z c pages log }
{
    first_in_first_out();
    acknowledged_stay();
    crash_goes_on();
    checkpoint_crash_goes_on();
    growth_goes_on();
    shut_crash_goes_on();
    restart_goes_on();
    still_store_refuses();
    one_log();
    one_size();
}

/// What a run refuses: replies, refusals and reports that the store did not give.
pub fn runs_are_judged()
    ensures { AreRunsJudged }
{
    a_run_is_told();
    one_size();
}
