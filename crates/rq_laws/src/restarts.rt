//! Restarts, by two over the same log, and what one leaves.
ghost use Rattle.std.specs.Prelude.{◌≡◌, ℕ, IfOk, List};
ghost use Rattle.rq_model.specs.declared.record.Record.{Record};
ghost use Rattle.rq_restart.specs.Restarting.{IsReadAs};

use rq_disk::{LogDevice, PageDevice};
use rq_engine::engine::Engine;
use rq_level::Level;
use rq_planner::StoreLevels;
use rq_pool::frame_count::FrameCount;
use rq_restart::restart::{Report, Stopped, restart};
use std::alloc::Global;

/// Two restarts over one log, in as many frames, begin the same incarnation, and report the same of it. What else the lists
/// of an opened store have follows from its sizes, pages and records. Excludes an incarnation that is given again, and with it transaction
/// numbers. Excludes last tags, or how many messages wait, that come from elsewhere than the directory. Excludes cells
/// that are counted otherwise.
pub fn restarts<P: PageDevice + Drop, L: LogDevice + Drop, B: Level>(
    alloc: Global,
    pages: P,
    again: P,
    log: L,
    log_again: L,
    levels: StoreLevels<B>,
    levels_again: StoreLevels<B>,
    frames: FrameCount,
) -> (
    Result<(Engine<P, L, B>, Report), Stopped<P, L>>,
    Result<(Engine<P, L, B>, Report), Stopped<P, L>>,
)
    requires log { log ≡ log_again }
    ensures incarnation { IfOk result.0 (λ a. IfOk result.1 (λ b. (older : List Record)
        → IsReadAs L.LogDevice log a.0.log older → IsReadAs L.LogDevice log b.0.log older
        → a.1.incarnation ≡ b.1.incarnation)) }
    ensures report { IfOk result.0 (λ a. IfOk result.1 (λ b. (older : List Record)
        → IsReadAs L.LogDevice log a.0.log older → IsReadAs L.LogDevice log b.0.log older
        → (a.1.unfinished ≡ b.1.unfinished) × (a.1.lost ≡ b.1.lost))) }
    ensures state { IfOk result.0 (λ a. IfOk result.1 (λ b. (older : List Record)
        → IsReadAs L.LogDevice log a.0.log older → IsReadAs L.LogDevice log b.0.log older
        → a.0.state.sizes ≡ b.0.state.sizes → a.0.state.images ≡ b.0.state.images
        → a.0.state.records ≡ b.0.state.records → a.0.state ≡ b.0.state)) }
{
    (
        restart(alloc, pages, log, levels, frames),
        restart(alloc, again, log_again, levels_again, frames),
    )
}

/// Behind a restart that answered, a crash leaves one log. Excludes a restart that answers before its records are
/// forced.
pub fn leaves_one<P: PageDevice + Drop, L: LogDevice + Drop, B: Level>(
    alloc: Global,
    pages: P,
    log: L,
    levels: StoreLevels<B>,
    frames: FrameCount,
) -> Result<(Engine<P, L, B>, Report), Stopped<P, L>>
    ensures { IfOk result (λ o. L.honest o.0.log → (c d : List ℕ) → L.may_leave o.0.log c → L.may_leave o.0.log d
        → c ≡ d) }
{
    restart(alloc, pages, log, levels, frames)
}
