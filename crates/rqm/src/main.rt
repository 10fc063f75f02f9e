//! `rqm`, a recoverable queue manager.
#![tactic(auto)]

mod args;
mod change;
mod inspect;
mod progress;
mod serving;

use args::Args;
use change::{Change, run_change};
use inspect::run_inspect;
use rq_files::{Measures, Renames, run_format};
use rq_levels::sets_of_levels;
use rq_page::layout::Layout;
use rq_pool::frame_count::FrameCount;
use rq_script::{run_script, sets_wanted};
use serving::run_serve;
use std::fs::{File, OpenOptions};
use std::io::{self, Read, Write};
use std::net::{Net, TcpListener, TcpStream};
use std::os::fd::AsRawFd;
use std::process::ExitCode;
use std::rt::{Env, Files};
use std::sync::Wait;
use std::thread::Threads;
use std::time::Clock;

fn main(rt: HostRuntime) -> ExitCode {
    let _held = closed_streams(&rt);
    match run(&rt) {
        Ok(status) => ExitCode::from(status),
        Err(_) => ExitCode::from(1),
    }
}

// Takes the numbers of the standard streams that are closed, until the program ends. Else a file of a store gets one, and what
// is printed is written there.
fn closed_streams<R: Files<File = File>>(rt: &R) -> [Option<File>; 3] {
    [closed_stream(rt), closed_stream(rt), closed_stream(rt)]
}

// The lowest number that is free, where it is a standard stream's.
fn closed_stream<R: Files<File = File>>(rt: &R) -> Option<File> {
    let file = OpenOptions::new()
        .read(true)
        .write(true)
        .open(rt, "/dev/null")
        .ok()?;
    if file.as_raw_fd() <= 2 {
        Some(file)
    } else {
        None
    }
}

fn run<
    R: Print
        + Eprint
        + Input
        + AllocGlobal
        + Env
        + Files<File = File>
        + Net<Listener = TcpListener, Stream = TcpStream>
        + Renames
        + Measures
        + Wait
        + Threads
        + Clock
        + Sync,
>(rt: &R) -> io::Result<u8> {
    let mut writer = io::writer(rt);
    Ok(match args::read(rt)? {
        Args::Run(layout, frames) => run_input(rt, &mut writer, layout, frames)?,
        Args::Format(folder, layout) => run_format(rt, &mut writer, folder.as_str(), &layout),
        Args::Serve(asked) => run_serve(rt, &asked)?,
        Args::Checkpoint(folder) => run_change(rt, folder.as_str(), Change::Checkpoint)?,
        Args::Migrate(folder, tags) => run_change(rt, folder.as_str(), Change::Migrate(tags))?,
        Args::Inspect(folder) => run_inspect(rt, &mut writer, folder.as_str())?,
        Args::Answered(status) => status,
    })
}

// Runs the script that standard input holds. Each opening of the store has levels of its own.
fn run_input<R: Input + AllocGlobal, W: Write>(
    rt: &R,
    writer: &mut W,
    layout: Layout,
    frames: FrameCount,
) -> io::Result<u8> {
    let alloc = rt.alloc();
    let mut script = Vec::new(alloc);
    if rt.reader().read_to_end(&mut script).is_err() {
        writer.write_all(b"fault input\n")?;
        return Ok(1);
    }
    let Ok(sets) = sets_of_levels(alloc, sets_wanted(&script)) else {
        writer.write_all(b"fault 1 NoMemory\n")?;
        return Ok(1);
    };
    let mut reader = script.as_slice();
    Ok(run_script(alloc, &mut reader, writer, layout, frames, sets))
}
