//! A step interface that notes whether frames were wanting.
ghost use Rattle.std.specs.Prelude.{◌≡◌, false};
ghost use Rattle.rq_server.specs.Wanting.{are_frames_wanting, is_force, was_full};

use rq_engine::event::{Event, Reply};
use rq_model::refusal::Refusal;
use rq_shared::kept::Stamped;
use rq_workers::steps::Steps;

/// The calls of a worker. It is noted whether one of them, since the last force, was refused for want of frames.
#[derive(Drop)]
pub(crate) struct NotingSteps<S: Steps> {
    inner: S,
    lacks_frames: bool,
    ghost noted: { lacks_frames ≡ are_frames_wanting (S.made inner) },
}

impl<S: Steps> NotingSteps<S> {
    pub(crate) fn new(inner: S) -> Self
        requires { are_frames_wanting (S.made inner) ≡ false }
        ensures { result.inner ≡ inner }
    {
        NotingSteps {
            inner,
            lacks_frames: false,
        }
    }

    /// Whether a call since the last force was refused for want of frames.
    pub(crate) fn lacks_frames(&self) -> bool
        ensures { result ≡ are_frames_wanting (S.made self.now.inner) }
    {
        self.lacks_frames
    }
}

impl<S: Steps> Steps for NotingSteps<S> {
    ghost made = { λ s. S.made s.inner };

    ghost forced = { λ s. S.forced s.inner };

    ghost told = { λ s. S.told s.inner };

    ghost lacked = { λ s. S.lacked s.inner };

    ghost counted = { λ s. S.counted s.inner };

    ghost shown = { λ s. S.shown s.inner };

    fn call(&mut self, event: Event) -> Stamped {
        let forces = asks_force(&event);
        let stamped = self.inner.call(event);
        self.lacks_frames = !forces && (is_full(stamped.reply()) || self.lacks_frames);
        stamped
    }

    fn force(&mut self) -> Stamped {
        let stamped = self.inner.force();
        self.lacks_frames = false;
        stamped
    }

    fn seen(&mut self, stamped: Stamped) {
        self.inner.seen(stamped);
    }

    fn copy(&mut self, event: &Event) -> Option<Event> {
        self.inner.copy(event)
    }
}

// Whether a force is asked for.
fn asks_force(event: &Event) -> bool
    ensures { result ≡ is_force event.now }
{
    matches!(event, Event::Force)
}

// Whether frames were wanting.
fn is_full(reply: &Reply) -> bool
    ensures { result ≡ was_full reply.now }
{
    matches!(reply, Reply::Refused(Refusal::PoolFull))
}
