//! The kept engine: two in the same state that are given the same call.
ghost use Rattle.std.specs.Prelude.{◌≡◌, ◌≢◌, false};
ghost use Rattle.rq_model.specs.Causes.{reads_pages};
ghost use Rattle.rq_engine.specs.Says.{call_of};
ghost use Rattle.rq_laws.specs.Alike.{LeftAlike};

use rq_disk::{LogDevice, PageDevice};
use rq_engine::event::{Event, Reply};
use rq_level::Level;
use rq_model::refusal::Refusal;
use rq_shared::kept::{Kept, Stamped, Taken};

/// A stamp says who asked and what. Two of one reply come with the same entry. Where memory was wanting there is none, and
/// the lists are as they were but for images, which are over honest devices. So are the log, and the count of failures. All is,
/// where the call reads no page. Excludes an entry that is left out, and a call that is told as another.
pub fn step<P: PageDevice + Drop, L: LogDevice + Drop, B: Level>(
    first: &mut Kept<P, L, B>,
    second: &mut Kept<P, L, B>,
    pass: u64,
    event: Event,
    again: Event,
) -> (Stamped, Stamped)
    requires same { first.old ≡ second.old }
    requires event { event ≡ again }
    ensures pass { result.0.pass ≡ result.1.pass }
    ensures event { result.0.event ≡ result.1.event }
    ensures audit { result.0.reply ≢ Reply.Refused Refusal.NoMemory → result.0.reply ≡ result.1.reply
        → first.new.audit ≡ second.new.audit }
    ensures refused { result.0.reply ≡ Reply.Refused Refusal.NoMemory → result.1.reply ≡ Reply.Refused Refusal.NoMemory
        → first.new.audit ≡ second.new.audit }
    ensures same { result.0.reply ≡ Reply.Refused Refusal.NoMemory → result.1.reply ≡ Reply.Refused Refusal.NoMemory
        → P.honest first.new.engine.pages → P.honest second.new.engine.pages
        → first.new.engine.state ≡ second.new.engine.state }
    ensures left { result.0.reply ≡ Reply.Refused Refusal.NoMemory → result.1.reply ≡ Reply.Refused Refusal.NoMemory
        → LeftAlike first.new.engine second.new.engine
        × (P.faults first.new.engine.pages ≡ P.faults second.new.engine.pages) }
    ensures still { result.0.reply ≡ Reply.Refused Refusal.NoMemory → result.1.reply ≡ Reply.Refused Refusal.NoMemory
        → reads_pages (call_of event) ≡ false → first.new ≡ second.new }
{
    (first.step(pass, event), second.step(pass, again))
}

/// What is taken is the same, and what is left. Excludes an audit that is thrown away.
pub fn take<P: PageDevice + Drop, L: LogDevice + Drop, B: Level>(
    first: &mut Kept<P, L, B>,
    second: &mut Kept<P, L, B>,
) -> (Taken<P, L, B>, Taken<P, L, B>)
    requires same { first.old ≡ second.old }
    ensures taken { result.0 ≡ result.1 }
    ensures left { first.new ≡ second.new }
{
    (first.take(), second.take())
}
