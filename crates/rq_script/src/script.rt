//! The lines of a script, carried out over a store.
ghost use Rattle.std.specs.Prelude.{◌≤◌, IfOk};

use crate::calls::{Store, carry_out};
use crate::command::Command;
use crate::command_result::{CommandResult, LINE_ROOM};
use crate::machine::{Machine, Medium};
use crate::store::Memory;
use rq_level::Level;
use rq_page::layout::{Layout, TAGS_LIMIT};
use rq_planner::StoreLevels;
use rq_pool::frame_count::FrameCount;
use std::alloc::Global;
use std::io;
use std::io::{Read, Write};

/// Runs a script to its end, or to a fault, and answers the exit status: 0, or 1 after a fault. What its commands print
/// is written as they are carried out. A script's refusals are lines like any other. Each opening has the store in so many
/// frames, but for a `restart N` up to its stop: that has a frame for each page. The first takes a set of levels, the last one that
/// is left, and so does each restart. A `restart N` that makes no
/// more than N records takes two. Where none is left, `fault 1 NoMemory` is printed.
pub fn run_script<R: Read, W: Write, B: Level>(
    alloc: Global,
    reader: &mut R,
    writer: &mut W,
    layout: Layout,
    frames: FrameCount,
    sets: Vec<StoreLevels<B>>,
) -> u8
    ensures status { result ≤ 1 }
{
    let mut input = Vec::new(alloc);
    if reader.read_to_end(&mut input).is_err() {
        let _ = writer.write_all(b"fault input\n");
        return 1;
    }
    match run_lines(alloc, &input, writer, layout, frames, sets) {
        Ok(status) => status,
        Err(_) => 1,
    }
}

/// How many sets of levels a script may take. It takes one for the opening, and one for each line that begins with
/// `restart`. Such a line takes one more where a number stands behind that.
pub fn sets_wanted(script: &[u8]) -> usize {
    let mut sets: usize = 1;
    for line in script.split(|byte| *byte == b'\n') {
        if line.starts_with(b"restart") {
            sets = sets.saturating_add(1);
        }
        if line.starts_with(b"restart ") {
            sets = sets.saturating_add(1);
        }
    }
    sets
}

// For how many pages more the device of a script's store has room: all tag pages that a store may be given, where a line begins
// with `migrate`.
fn room_wanted(script: &[u8]) -> u32 {
    for line in script.split(|byte| *byte == b'\n') {
        if line.starts_with(b"migrate") {
            return TAGS_LIMIT;
        }
    }
    0
}

// Makes a store, and carries out the lines over it.
fn run_lines<W: Write, B: Level>(
    alloc: Global,
    input: &[u8],
    writer: &mut W,
    layout: Layout,
    frames: FrameCount,
    sets: Vec<StoreLevels<B>>,
) -> io::Result<u8>
    ensures status { IfOk result (λ status. status ≤ 1) }
{
    let Ok(mut output) = Vec::with_capacity(alloc, LINE_ROOM) else {
        writer.write_all(b"fault 1 NoMemory\n")?;
        return Ok(1);
    };
    match Memory::formatted(alloc, &layout, room_wanted(input), frames, sets) {
        Ok((memory, devices)) => run_over(alloc, memory, devices, input, writer, &mut output),
        Err(refusal) => {
            CommandResult::Fault(refusal).print(&mut output);
            writer.write_all(&output)?;
            Ok(1)
        }
    }
}

// Opens the store, and carries out the lines. What the opening came to is printed, too.
fn run_over<K: Drop, D: Drop, M: Medium<K, D> + Drop, W: Write>(
    alloc: Global,
    medium: M,
    devices: D,
    input: &[u8],
    writer: &mut W,
    output: &mut Vec<u8>,
) -> io::Result<u8>
    ensures status { IfOk result (λ status. status ≤ 1) }
{
    let mut machine = Machine::new(alloc, medium);
    let opened = machine.open(devices);
    opened.print(output);
    writer.write_all(output)?;
    if opened.is_fault() {
        return Ok(1);
    }
    run(&mut machine, alloc, input, writer, output)
}

// Carries out the lines, to the end of the script or to a fault, and writes what each prints before the next one.
fn run<S: Store, W: Write>(
    store: &mut S,
    alloc: Global,
    input: &[u8],
    writer: &mut W,
    output: &mut Vec<u8>,
) -> io::Result<u8>
    ensures status { IfOk result (λ status. status ≤ 1) }
{
    let mut rest = input;
    for number in 1..u64::MAX {
        if rest.is_empty() {
            break;
        }
        let (line, behind) = first_line(rest);
        rest = behind;
        let goes_on = run_line(store, alloc, number, line, output);
        writer.write_all(output)?;
        if !goes_on {
            return Ok(1);
        }
    }
    Ok(0)
}

// Carries out the command that the line is, prints what it came to, and answers whether the script goes on.
fn run_line<S: Store>(
    store: &mut S,
    alloc: Global,
    number: u64,
    line: &[u8],
    output: &mut Vec<u8>,
) -> bool {
    let result = carry_out(store, alloc, number, Command::parse(line));
    result.print(output);
    !result.is_fault()
}

// What stands before the first newline, and what stands behind it.
fn first_line(input: &[u8]) -> (&[u8], &[u8]) {
    match input.iter().position(|byte| *byte == b'\n') {
        Some(at) => (&input[..at], &input[at + 1..]),
        None => (input, &[]),
    }
}
