//! The store that is called, over devices in memory.
use rq_disk::{MemLog, MemPages, Switch};
use rq_engine::engine::Engine;
use rq_levels::{StoreLevel, levels_of_store};
use rq_page::layout::Layout;
use rq_pool::frame_count::FrameCount;
use rq_restart::format::format;
use rq_restart::restart::restart;
use std::alloc::Global;

/// An engine over devices in memory.
pub type Store = Engine<MemPages, MemLog, StoreLevel>;

/// A store of these sizes, formatted and opened in as many frames as there may be.
pub fn new_engine(alloc: Global, layout: Layout) -> Option<Store> {
    let (mut pages, log) = devices(alloc, &layout)?;
    if format(&mut pages, &layout).is_err() {
        return None;
    }
    let levels = levels_of_store(alloc).ok()?;
    match restart(alloc, pages, log, levels, FrameCount::most()) {
        Ok((engine, _)) => Some(engine),
        Err(_) => None,
    }
}

fn devices(alloc: Global, layout: &Layout) -> Option<(MemPages, MemLog)> {
    let switch = Switch::new(alloc).ok()?;
    let for_log = switch.share().ok()?;
    let pages = MemPages::zeroed(alloc, layout.pages(), switch).ok()?;
    Some((pages, MemLog::new(alloc, Vec::new(alloc), for_log)))
}
