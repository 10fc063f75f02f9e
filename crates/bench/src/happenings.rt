//! Lists of happenings, which come to a store in memory.
mod line;
mod printing;
mod reading;

use crate::happenings::printing::print_entry;
use crate::happenings::reading::{List, read_list};
use crate::words::{frames_at, input, number};
use rq_core::happening::{Entry, Happening};
use rq_core::world::{RunResult, World};
use rq_levels::sets_of_levels;
use rq_page::layout::Layout;
use rq_pool::frame_count::FrameCount;
use std::alloc::{AllocError, Global};
use std::io;
use std::io::Write;

/// Lets what standard input says happen to a store in memory, a happening a line, and prints what each came to. The store has as many
/// pages as the words say; it is formatted, and not open before the first `restart`. Each opens it in as many frames as they say, or
/// as there may be.
///
/// # Errors
/// Where the words name no store, memory is wanting, or input or output fails. Where a line is no happening it is named, and nothing
/// happens.
pub fn run<R: Print + Input + AllocGlobal>(rt: &R, words: &[String]) -> io::Result<()> {
    let (Some(layout), Some(frames)) = (layout_of(words), frames_at(words, 4)) else {
        return Err(io::ErrorKind::InvalidInput.into());
    };
    let lines = input(rt)?;
    let list = read_list(rt.alloc(), &lines)?;
    let mut output = Vec::new(rt.alloc());
    if list.fault > 0 {
        writeln!(output, "fault line {}", list.fault)?;
        io::writer(rt).write_all(&output)?;
        return Err(io::ErrorKind::InvalidData.into());
    }
    let entries = entries_of(rt.alloc(), layout, frames, &list)?;
    print_all(&mut output, &entries)?;
    io::writer(rt).write_all(&output)
}

// How large the store is; none where the words do not say so.
fn layout_of(words: &[String]) -> Option<Layout> {
    let tags = match words.len() {
        3 => 0,
        4 | 5 => number(words, 3)?,
        _ => return None,
    };
    Layout::new(number(words, 1)?, number(words, 2)?, tags)
}

fn entries_of(
    alloc: Global,
    layout: Layout,
    frames: FrameCount,
    list: &List,
) -> Result<Vec<Entry>, AllocError> {
    run_world(
        World::new(alloc, layout, list.room, frames)?,
        alloc,
        &list.happenings,
        list.restarts,
    )
}

fn run_world(
    world: World,
    alloc: Global,
    happenings: &[Happening],
    restarts: usize,
) -> Result<Vec<Entry>, AllocError> {
    let sets = sets_of_levels(alloc, restarts)?;
    let RunResult {
        entries,
        pages: _,
        log: _,
    } = world.run(happenings, sets)?;
    Ok(entries)
}

fn print_all(output: &mut Vec<u8>, entries: &[Entry]) -> io::Result<()> {
    for entry in entries {
        print_entry(output, entry)?;
    }
    Ok(())
}
