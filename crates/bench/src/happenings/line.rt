//! The words and numbers of a line, from its front on.
use rq_model::txn::{Sub, Txn};
use std::str::from_utf8;

/// What is left of a line, and whether something in it was no number that it had to be.
#[derive(Clone, Copy)]
pub struct Line<'a> {
    rest: &'a [u8],
    is_bad: bool,
}

impl<'a> Line<'a> {
    /// A whole line.
    pub fn new(text: &'a [u8]) -> Line<'a> {
        Line {
            rest: text,
            is_bad: false,
        }
    }

    /// Whether something in it was not what it had to be.
    pub fn is_bad(&self) -> bool {
        self.is_bad
    }

    /// It is no happening.
    pub fn refuse(&mut self) {
        self.is_bad = true;
    }

    /// All that is left.
    pub fn rest(&self) -> &'a [u8] {
        self.rest
    }

    /// What stands before the next byte of this kind, or all where there is none. The byte is passed over.
    pub fn until(&mut self, end: u8) -> &'a [u8] {
        let (word, rest) = split_at_byte(self.rest, end);
        self.rest = rest;
        word
    }

    /// The next word, as a number; 0 where it is none.
    pub fn number(&mut self) -> u64 {
        let word = self.until(b' ');
        self.value(word)
    }

    /// The next word, as a number, and another behind `+`; 0 where that is missing.
    pub fn sum(&mut self) -> (u64, u64) {
        let mut word = Line::new(self.until(b' '));
        let first = word.until(b'+');
        let first = self.value(first);
        let second = match word.rest() {
            [] => 0,
            rest => self.value(rest),
        };
        (first, second)
    }

    /// The next word, as a number of 32 bits.
    pub fn short(&mut self) -> u32 {
        let number = self.number();
        match u32::try_from(number) {
            Ok(number) => number,
            Err(_) => {
                self.is_bad = true;
                0
            }
        }
    }

    /// `2.1`
    pub fn txn(&mut self) -> Txn {
        let word = self.until(b'.');
        let incarnation = self.value(word);
        Txn {
            incarnation,
            count: self.number(),
        }
    }

    /// `2.1 3`
    pub fn sub(&mut self) -> Sub {
        let txn = self.txn();
        Sub {
            txn,
            number: self.number(),
        }
    }

    /// The number that a word is; 0 where it is none.
    pub fn value(&mut self, word: &[u8]) -> u64 {
        match number_of(word) {
            Some(number) => number,
            None => {
                self.is_bad = true;
                0
            }
        }
    }
}

// What stands before the first byte of this kind, and what stands behind it.
fn split_at_byte(text: &[u8], end: u8) -> (&[u8], &[u8]) {
    match text.iter().position(|byte| *byte == end) {
        Some(at) => (&text[..at], &text[at + 1..]),
        None => (text, &[]),
    }
}

// Digits alone: no sign stands before them.
fn number_of(word: &[u8]) -> Option<u64> {
    if !word.first()?.is_ascii_digit() {
        return None;
    }
    from_utf8(word).ok()?.parse().ok()
}
