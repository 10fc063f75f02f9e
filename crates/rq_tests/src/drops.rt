//! How often levels are dropped that were handed in as boxes.
ghost use Rattle.std.specs.Prelude.{◌≡◌, None};
ghost use Rattle.rq_level.specs.LevelState.{HasRoom};

use crate::counted::{Asks, Counted};
use crate::own_level::ClientCounter;
use rq_chain::ChainLevel;
use rq_disk::{MemLog, MemPages, Switch};
use rq_engine::engine::Engine;
use rq_level::Level;
use rq_page::layout::Layout;
use rq_pageops::PageLevel;
use rq_planner::StoreLevels;
use rq_pool::frame_count::FrameCount;
use rq_restart::format::format;
use rq_restart::restart::restart;
use std::alloc::{AllocError, Global};
use std::process::Abort;
use std::sync::Arc;
use std::test::Fail;

// How often the three levels were dropped while the store was open, and once it was given back; or, where it was not opened,
// once that was refused.
#[derive(Drop)]
enum Dropped {
    GivenBack { open: u64, closed: u64 },
    Refused { closed: u64 },
}

// Opens a store with boxed levels that count in one place, and gives it back.
fn count_drops(alloc: Global, is_formatted: bool) -> Result<Dropped, AllocError> {
    let asks = Arc::new(alloc, Asks::new())?;
    let slots: Box<dyn Level + Send> = Box::new(alloc, Counted::new(PageLevel, &asks)?)?;
    let Ok(chains) = ChainLevel::new(alloc) else {
        return Err(AllocError);
    };
    let chains: Box<dyn Level + Send> = Box::new(alloc, Counted::new(chains, &asks)?)?;
    let tags: Box<dyn Level + Send> = Box::new(alloc, Counted::new(ClientCounter::new(), &asks)?)?;
    open_and_close(alloc, is_formatted, slots, chains, tags, &asks)
}

// Opens a store with these levels, and gives it back.
fn open_and_close<B: Level>(
    alloc: Global,
    is_formatted: bool,
    slots: B,
    chains: B,
    tags: B,
    asks: &Asks,
) -> Result<Dropped, AllocError>
    requires slots { B.level slots ≡ 0 }
    requires operations { B.level chains ≡ 1 }
    requires clients { B.level tags ≡ 2 }
    requires sizes { (B.kept slots).sizes ≡ None }
    requires room { HasRoom (B.kept chains) }
{
    let (pages, log) = store(alloc, is_formatted)?;
    let mut levels = Vec::with_capacity(alloc, 3)?;
    levels.push(slots)?;
    levels.push(chains)?;
    levels.push(tags)?;
    match opened(alloc, pages, log, StoreLevels::new(levels)) {
        Some(engine) => Ok(given_back(engine, asks)),
        None => Ok(Dropped::Refused {
            closed: asks.counts().drops,
        }),
    }
}

fn opened<B: Level>(
    alloc: Global,
    pages: MemPages,
    log: MemLog,
    levels: StoreLevels<B>,
) -> Option<Engine<MemPages, MemLog, B>> {
    match restart(alloc, pages, log, levels, FrameCount::most()) {
        Ok((engine, _)) => Some(engine),
        Err(_) => None,
    }
}

fn given_back<B: Level>(engine: Engine<MemPages, MemLog, B>, asks: &Asks) -> Dropped {
    let open = asks.counts().drops;
    let (_, _) = engine.give_back();
    Dropped::GivenBack {
        open,
        closed: asks.counts().drops,
    }
}

// The devices of a small store, which may be formatted.
fn store(alloc: Global, is_formatted: bool) -> Result<(MemPages, MemLog), AllocError> {
    let Some(layout) = Layout::new(1, 1, 0) else {
        return Err(AllocError);
    };
    let switch = Switch::new(alloc)?;
    let mut pages = MemPages::zeroed(alloc, layout.pages(), switch.share()?)?;
    if is_formatted && format(&mut pages, &layout).is_err() {
        return Err(AllocError);
    }
    let log = MemLog::new(alloc, Vec::new(alloc), switch);
    Ok((pages, log))
}

#[test]
fn each_level_is_dropped_once(rt: HostRuntime) -> Result<(), Fail> {
    let given_back = count_drops(rt.alloc(), true).map_err(|_| "memory")?;
    assert!(rt; matches!(&given_back, Dropped::GivenBack { open: 0, closed: 3 }));
    let refused = count_drops(rt.alloc(), false).map_err(|_| "memory")?;
    assert!(rt; matches!(&refused, Dropped::Refused { closed: 3 }));
    Ok(())
}
