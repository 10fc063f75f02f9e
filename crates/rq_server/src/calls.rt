//! What a worker calls the store by.
ghost use Rattle.std.specs.Prelude.{◌≡◌, ◌≤◌, false, true};
ghost use Rattle.rq_serving.specs.Carried.{IsForce};
ghost use Rattle.rq_server.specs.Reached.{IsReached};
ghost use Rattle.rq_server.specs.Wanting.{are_frames_wanting};

use crate::notices::Notices;
use crate::noting::NotingSteps;
use crate::turns::Turns;
use rq_model::txn::Lsn;
use rq_shared::mark::{Mark, MarkPass};
use rq_workers::steps::Steps;
use std::io::Error;
use std::sync::Wait;

/// Where a worker reads how far the log is forced.
#[derive(Drop)]
pub(crate) struct MarkReader<'a> {
    mark: &'a Mark,
    seat: MarkPass,
    ghost of_mark: { seat.table ≡ mark.now },
}

impl<'a> MarkReader<'a> {
    pub(crate) fn new(mark: &'a Mark, seat: MarkPass) -> Self
        requires { seat.table ≡ mark.now }
    {
        MarkReader { mark, seat }
    }

    // How far the log is forced, and no less than what was read before.
    fn read(&mut self) -> Lsn
        ensures saw { result ≡ self.new.seat.saw }
        ensures grown { self.old.seat.saw ≤ result }
    {
        self.mark.read(&mut self.seat)
    }
}

/// What a worker calls the store by: its steps, the mark, its turns, and what it tells the other threads.
#[derive(Drop)]
pub(crate) struct Calls<'a, S: Steps> {
    pub(crate) steps: NotingSteps<S>,
    reader: MarkReader<'a>,
    pub(crate) turns: &'a Turns,
    notices: &'a Notices,
}

impl<'a, S: Steps> Calls<'a, S> {
    pub(crate) fn new(
        steps: S,
        reader: MarkReader<'a>,
        turns: &'a Turns,
        notices: &'a Notices,
    ) -> Self
        requires { are_frames_wanting (S.made steps) ≡ false }
    {
        Calls {
            steps: NotingSteps::new(steps),
            reader,
            turns,
            notices,
        }
    }

    /// Forces, which frees the memory of what is buffered.
    pub(crate) fn force<R: Wait>(&mut self, rt: &R)
        ensures forced { IsForce S.made S.forced S.told self.old.steps.inner self.new.steps.inner }
        ensures same { self.new.reader ≡ self.old.reader }
    {
        let turns = self.turns;
        let _forcing = turns.forcing.lock(rt);
        self.make_force();
    }

    /// Forces, where frames were wanting for a call since the last force. Who makes that call again finds them.
    pub(crate) fn force_for_frames<R: Wait>(&mut self, rt: &R)
        ensures wanting { are_frames_wanting (S.made self.old.steps.inner) ≡ true
            → IsForce S.made S.forced S.told self.old.steps.inner self.new.steps.inner }
        ensures enough { are_frames_wanting (S.made self.old.steps.inner) ≡ false → self.new ≡ self.old }
        ensures none { are_frames_wanting (S.made self.new.steps.inner) ≡ false }
        ensures same { self.new.reader ≡ self.old.reader }
    {
        if self.steps.lacks_frames() {
            self.force(rt);
        }
    }

    /// Forces, where the log is not forced as far as this once no other worker forces.
    pub(crate) fn force_up_to<R: Wait>(&mut self, rt: &R, lsn: Lsn)
        ensures reached { IsReached S.made S.forced S.told lsn self.new.reader.seat.saw self.old.steps.inner self.new.steps.inner }
        ensures grown { self.old.reader.seat.saw ≤ self.new.reader.seat.saw }
    {
        let turns = self.turns;
        let _forcing = turns.forcing.lock(rt);
        if self.forced() < lsn {
            self.make_force();
        }
    }

    fn make_force(&mut self)
        ensures forced { IsForce S.made S.forced S.told self.old.steps.inner self.new.steps.inner }
        ensures same { self.new.reader ≡ self.old.reader }
    {
        let stamped = self.steps.force();
        self.steps.seen(stamped);
    }

    /// How far the log is forced.
    pub(crate) fn forced(&mut self) -> Lsn
        ensures saw { result ≡ self.new.reader.seat.saw }
        ensures grown { self.old.reader.seat.saw ≤ result }
        ensures same { self.new.steps ≡ self.old.steps }
    {
        self.reader.read()
    }

    /// Waits for the force of another worker, where the log is not forced as far as this, but not for long. Forces where that one
    /// did not reach as far, or none came.
    pub(crate) fn await_force<R: Wait>(&mut self, rt: &R, lsn: Lsn)
        ensures reached { IsReached S.made S.forced S.told lsn self.new.reader.seat.saw self.old.steps.inner self.new.steps.inner }
        ensures grown { self.old.reader.seat.saw ≤ self.new.reader.seat.saw }
    {
        let seen = self.notices.forces();
        if self.forced() >= lsn {
            return;
        }
        self.notices.await_force(rt, seen);
        self.force_up_to(rt, lsn);
    }

    /// No connection can be taken.
    pub(crate) fn tell_no_room<R: Eprint>(&self, rt: &R, error: &Error) {
        self.notices.tell_no_room(rt, error);
    }

    /// The system reports nothing more.
    pub(crate) fn tell_deaf<R: Eprint>(&self, rt: &R, error: &Error) {
        self.notices.tell_deaf(rt, error);
    }

    /// Sleeps for so many milliseconds.
    pub(crate) fn pause<R: Wait>(&self, rt: &R, millis: u64) {
        self.notices.pause(rt, millis);
    }

    /// A round was made.
    pub(crate) fn note_round(&self) {
        self.notices.note_round();
    }
}
