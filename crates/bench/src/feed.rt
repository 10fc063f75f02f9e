//! The requests of a stream, fed in pieces of 4 KB and counted.
use crate::words::{input, number};
use rq_wire::{Frames, Request};
use std::alloc::Global;
use std::io;
use std::io::Write;

/// The bytes of a piece.
const PIECE: usize = 4096;

/// What a stream asked: its requests, and the sum of the tags and of the lengths of its sends.
#[derive(Clone, Copy, Drop)]
struct Totals {
    requests: u64,
    tags: u64,
    bytes: u64,
}

/// Feeds the stream of standard input so many times, and prints what it asked.
pub fn run<R: Print + Input + AllocGlobal>(rt: &R, words: &[String]) -> io::Result<()> {
    let bytes = input(rt)?;
    let mut totals = None;
    for _ in 0..number(words, 1).unwrap_or(1) {
        totals = totals_of(rt.alloc(), &bytes);
    }
    let mut writer = io::writer(rt);
    match totals {
        Some(
            Totals {
                requests,
                tags,
                bytes,
            },
        ) => writeln!(writer, "{requests} requests, tags {tags}, bytes {bytes}"),
        None => Err(io::ErrorKind::InvalidData.into()),
    }
}

// What the stream asked; none where it has a fault, or where memory was wanting.
fn totals_of(alloc: Global, bytes: &[u8]) -> Option<Totals> {
    let mut frames = Frames::new(alloc);
    let mut totals = Totals {
        requests: 0,
        tags: 0,
        bytes: 0,
    };
    for piece in bytes.chunks(PIECE) {
        let fed = frames.feed(piece).ok()?;
        if fed.fault {
            return None;
        }
        for request in fed.requests {
            totals = with_request(totals, request);
        }
    }
    Some(totals)
}

fn with_request(totals: Totals, request: Request) -> Totals {
    let mut totals = totals;
    totals.requests = totals.requests.wrapping_add(1);
    if let Request::Send { tag, body, .. } = request {
        totals.tags = totals.tags.wrapping_add(tag);
        totals.bytes = totals.bytes.wrapping_add(body.into_vec().len() as u64);
    }
    totals
}
