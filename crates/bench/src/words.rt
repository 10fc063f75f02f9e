//! The words of the process, behind its own name.
use rq_page::layout::Layout;
use rq_pool::frame_count::FrameCount;
use std::io::Read;
use std::rt::Env;
use std::{env, io};

/// What is done.
#[derive(Clone, Copy)]
pub enum Verb {
    Decode,
    Feed,
    Append,
    Replace,
    Beside,
    Make,
    Open,
    Checkpoint,
    Calls,
    Happenings,
}

const VERBS: [(&str, Verb); 10] = [
    ("decode", Verb::Decode),
    ("feed", Verb::Feed),
    ("append", Verb::Append),
    ("replace", Verb::Replace),
    ("beside", Verb::Beside),
    ("make", Verb::Make),
    ("open", Verb::Open),
    ("checkpoint", Verb::Checkpoint),
    ("calls", Verb::Calls),
    ("happenings", Verb::Happenings),
];

/// Reads the words.
pub fn read<R: AllocGlobal + Env>(rt: &R) -> io::Result<Vec<String>> {
    let mut all = env::args(rt)?;
    let _ = all.next();
    let mut words = Vec::new(rt.alloc());
    for word in all {
        words.push(word)?;
    }
    Ok(words)
}

/// What the first word says is done.
pub fn verb_of(words: &[String]) -> Option<Verb> {
    named(words.first()?.as_str(), &VERBS)
}

/// What a word names.
pub fn named<T: Copy>(word: &str, names: &[(&str, T)]) -> Option<T> {
    for (name, value) in names {
        if *name == word {
            return Some(*value);
        }
    }
    None
}

/// The number at a place; none where there is none.
pub fn number(words: &[String], place: usize) -> Option<u32> {
    words.get(place)?.parse().ok()
}

/// The sizes of a store: the directory pages at a place, and the cell pages behind them.
pub fn sizes(words: &[String], place: usize) -> Option<Layout> {
    Layout::new(
        number(words, place)?,
        number(words, place.checked_add(1)?)?,
        0,
    )
}

/// In how many frames a store is opened: as the word at a place says, or as many as there may be where none stands there. None where
/// it says too few or too many.
pub fn frames_at(words: &[String], place: usize) -> Option<FrameCount> {
    if words.len() <= place {
        return Some(FrameCount::most());
    }
    FrameCount::new(number(words, place)?)
}

/// All of standard input.
pub fn input<R: Input + AllocGlobal>(rt: &R) -> io::Result<Vec<u8>> {
    let mut bytes = Vec::new(rt.alloc());
    let mut reader = rt.reader();
    reader.read_to_end(&mut bytes)?;
    Ok(bytes)
}
