//! The step interface of a server's thread: calls of a shared engine, whose audit is taken and dropped.
ghost use Rattle.std.specs.Prelude.{◌≡◌, length};

use crate::notices::Notices;
use rq_disk::{LogDevice, PageDevice};
use rq_engine::event::{Event, Reply};
use rq_level::Level;
use rq_model::refusal::Refusal;
use rq_shared::kept::Stamped;
use rq_shared::sharing::Sharing;
use rq_workers::shared::{DropStamps, SharedSteps};
use rq_workers::steps::Steps;
use std::sync::Wait;

/// After how many calls a thread takes the audit, so that it does not grow where nothing is forced.
const CALLS_A_TAKE: u32 = 256;

/// The calls of a worker or of a loop. Stamps are dropped, and the audit is taken and dropped with each force and after
/// many calls. A force is made known to the server's other threads, and so are many calls of one round. A store that
/// has failed is made known to who runs it.
#[derive(Drop)]
pub(crate) struct ServerSteps<'a, P: PageDevice, L: LogDevice, B: Level, G: Sharing, R: Wait> {
    inner: SharedSteps<'a, P, L, B, G, R, DropStamps>,
    rt: &'a R,
    notices: &'a Notices,
    calls: u32,
}

impl<'a, P: PageDevice + Drop, L: LogDevice + Drop, B: Level, G: Sharing, R: Wait> ServerSteps<
    'a,
    P,
    L,
    B,
    G,
    R,
> {
    pub(crate) fn new(
        inner: SharedSteps<'a, P, L, B, G, R, DropStamps>,
        rt: &'a R,
        notices: &'a Notices,
    ) -> Self
        ensures { result.inner ≡ inner.entry }
    {
        ServerSteps {
            inner,
            rt,
            notices,
            calls: 0,
        }
    }
}

impl<'a, P: PageDevice, L: LogDevice, B: Level, G: Sharing, R: Wait + Eprint> ServerSteps<
    'a,
    P,
    L,
    B,
    G,
    R,
> {
    // Tells who runs the server, where a call says that the store has failed. Where memory is wanting, the log writer is to force,
    // which frees what is buffered.
    fn tell(&self, stamped: &Stamped) {
        if has_failed(stamped.reply()) {
            self.notices.tell_failure(self.rt);
        }
        if matches!(stamped.reply(), Reply::Refused(Refusal::NoMemory)) {
            self.notices.note_round();
        }
    }
}

impl<'a, P: PageDevice + Drop, L: LogDevice + Drop, B: Level, G: Sharing, R: Wait + Eprint> Steps
    for ServerSteps<'a, P, L, B, G, R> {
    ghost made = { λ s. s.inner.made.value };

    ghost forced = { λ s. s.inner.forced.value };

    ghost told = { λ s. s.inner.sink.handed.value };

    ghost lacked = { λ s. length s.inner.lacked.value };

    ghost counted = { λ s. s.inner.pass.calls };

    ghost shown = { λ s. s.inner.seat.saw };

    fn call(&mut self, event: Event) -> Stamped {
        self.calls = self.calls.saturating_add(1);
        if self.calls >= CALLS_A_TAKE && !is_part(&event) {
            self.calls = 0;
            self.notices.note_round();
            drop(self.inner.take_audit());
        }
        let stamped = self.inner.call(event);
        self.tell(&stamped);
        stamped
    }

    fn force(&mut self) -> Stamped {
        let stamped = self.inner.force();
        self.notices.note_force();
        self.tell(&stamped);
        drop(self.inner.take_audit());
        stamped
    }

    fn seen(&mut self, stamped: Stamped) {
        self.inner.seen(stamped);
    }

    fn copy(&mut self, event: &Event) -> Option<Event> {
        self.inner.copy(event)
    }
}

// Whether the store has failed.
fn has_failed(reply: &Reply) -> bool {
    matches!(
        reply,
        Reply::Refused(Refusal::DiskWrite) | Reply::Refused(Refusal::Failed)
    )
}

// Whether it is a call of an operation under way.
fn is_part(event: &Event) -> bool {
    matches!(event, Event::Step(_) | Event::Finish(_))
}
