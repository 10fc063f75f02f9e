//! `rqm checkpoint` and `rqm migrate`: a store is opened, and its log made one record.
ghost use Rattle.std.specs.Prelude.{◌≡◌, ◌↔◌, IfErr, IfOk, Err, true};
ghost use Rattle.rq_engine.specs.Answers.{AnswersLegally};
ghost use Rattle.rqm.specs.Changing.{HasChanged, NotChanged, answered_by, call_made};

use crate::args::usual_frames;
use crate::progress::{Opening, while_told};
use crate::serving::{opened, tell_fault};
use rq_disk::{LogDevice, PageDevice, Unknown};
use rq_engine::engine::Engine;
use rq_files::{Fault, Measures, Renames};
use rq_level::Level;
use rq_model::refusal::Refusal;
use rq_model::txn::Lsn;
use rq_restart::restart::Report;
use std::fs::{File, Files};
use std::io;
use std::sync::Wait;
use std::thread::Threads;

/// What is done to a store.
#[derive(Clone, Copy)]
pub enum Change {
    /// Its log is made one record.
    Checkpoint,
    /// It is given so many tag pages, too.
    Migrate(u32),
}

impl Change {
    // For how many tag pages it wants room.
    fn room(self) -> u32 {
        match self {
            Change::Checkpoint => 0,
            Change::Migrate(tags) => tags,
        }
    }

    // What is printed before the LSN of the record.
    fn word(self) -> &'static str {
        match self {
            Change::Checkpoint => "checkpoint",
            Change::Migrate(_) => "migrated",
        }
    }

    // Does it to a store that is open. Answers the LSN of the one record that its log is then.
    fn make<P: PageDevice, L: LogDevice, B: Level>(
        self,
        engine: &mut Engine<P, L, B>,
    ) -> Result<Lsn, Refusal>
        ensures answered { AnswersLegally P.PageDevice L.LogDevice engine.old (call_made self) (answered_by self) result engine.new }
        ensures made { IfOk result (λ lsn. HasChanged P.PageDevice L.LogDevice self engine.old engine.new lsn) }
        ensures refused { IfErr result (λ r. NotChanged P.PageDevice L.LogDevice self engine.old engine.new r) }
        ensures sizes { engine.new.state.sizes ≡ engine.old.state.sizes }
        ensures failed { (result ≡ Err Refusal.Failed) ↔ (engine.old.state.failed ≡ true) }
    {
        match self {
            Change::Checkpoint => engine.checkpoint(),
            Change::Migrate(tags) => engine.migrate(tags),
        }
    }
}

/// Opens the store of a folder, and does this to it. Prints what the restart found, and the LSN of the record that the log is
/// then, or why not. Answers the exit status: 0, or 1 after a fault.
///
/// # Errors
/// Where a line cannot be printed.
pub fn run_change<
    R: AllocGlobal
        + Print
        + Eprint
        + Files<File = File>
        + Renames
        + Measures
        + Wait
        + Threads
        + Sync,
>(rt: &R, folder: &str, change: Change) -> io::Result<u8> {
    let opening = Opening::new();
    let opening = &opening;
    while_told(
        rt,
        folder,
        opening,
        move || make_change(rt, folder, change, opening),
    )
}

fn make_change<R: AllocGlobal + Print + Eprint + Files<File = File> + Renames>(
    rt: &R,
    folder: &str,
    change: Change,
    opening: &Opening,
) -> io::Result<u8> {
    match opened(rt, folder, change.room(), usual_frames(), Unknown) {
        Ok((mut engine, report)) => {
            opening.end();
            let status = tell_change(rt, &mut engine, &report, change);
            drop(engine);
            status
        }
        Err(fault) => tell_fault(rt, fault),
    }
}

// Prints what the restart found, and does this to the store, which is open. Prints the LSN of the record that its log is then, or
// why not. The exit status.
fn tell_change<P: PageDevice, L: LogDevice, B: Level, R: Print>(
    rt: &R,
    engine: &mut Engine<P, L, B>,
    report: &Report,
    change: Change,
) -> io::Result<u8> {
    println!(rt;
        "restarted {} unfinished {} lost {}",
        report.incarnation, report.unfinished, report.lost
    )?;
    let made = change.make(engine);
    tell_made(rt, change.word(), made)
}

// Prints the LSN of the record that the log is now, or why it is not one. The exit status.
fn tell_made<R: Print>(rt: &R, word: &str, made: Result<Lsn, Refusal>) -> io::Result<u8> {
    match made {
        Ok(lsn) => {
            println!(rt; "{word} {lsn}")?;
            Ok(0)
        }
        Err(refusal) => tell_fault(rt, Fault::Refused(refusal)),
    }
}
