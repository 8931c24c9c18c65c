//! What the notes are, and the words that keep them.
//!
//! A note is a span of slots. It says where to look, and nothing more: whether a slot is free, its own word says.
//! So a note may be stale, or get lost. A look at a slot is what a stale one costs.
//!
//! Each position has a line of words: the span in which it looks, then how many other spans are noted, and then those,
//! the newest last. Where all calls at a position are made by one thread, no other thread writes its line.
use std::alloc::{AllocError, Global};
use std::sync::atomic::AtomicU64;
use std::sync::atomic::Ordering::SeqCst;

/// How many spans a position has room for, beside the one in which it looks.
pub const SPANS: usize = 46;

// The words of a line, and 16 more, which keep it out of the cache lines of the next position's.
const STEP: usize = 64;

// A span that goes on behind a gap of fewer slots than this stays one span.
const GAP: usize = 4;

const HALF: u64 = 0x1_0000_0000;

/// Slots in a row: those from place `from` up to place `to`.
#[derive(Clone, Copy)]
pub struct Span {
    pub from: usize,
    pub to: usize,
}

impl Span {
    /// Takes the slot at this place in, where it is one of the span's, or stands close behind it.
    #[inline(always)]
    pub fn takes_in(&mut self, place: usize) -> bool {
        if place.wrapping_sub(self.to) < GAP {
            self.to = place.wrapping_add(1);
            return true;
        }
        self.from <= place && place < self.to
    }
}

/// The notes of all positions.
#[derive(Drop)]
pub struct Notes {
    words: Vec<AtomicU64>,
}

impl Notes {
    /// Makes room for the notes of this many positions. The only error is an allocation that was refused.
    pub fn new(alloc: Global, positions: usize) -> Result<Notes, AllocError> {
        let mut words = Vec::new(alloc);
        for _ in 0..positions {
            for _ in 0..STEP {
                match words.push(AtomicU64::new(0)) {
                    Ok(()) => {}
                    Err(_) => return Err(AllocError),
                }
            }
        }
        Ok(Notes { words })
    }

    // The word at this place of a position's line.
    #[inline(always)]
    fn word(&self, position: usize, place: usize) -> Option<&AtomicU64> {
        self.words
            .get(position.wrapping_mul(STEP).wrapping_add(place))
    }

    /// Returns the span in which this position looks for free slots.
    #[inline(always)]
    pub fn current(&self, position: usize) -> Span {
        match self.word(position, 0) {
            Some(word) => span_in(word.load(SeqCst)),
            None => Span { from: 0, to: 0 },
        }
    }

    /// Lets the position look in this span from now on.
    #[inline(always)]
    pub fn look_in(&self, position: usize, span: Span) {
        if let Some(word) = self.word(position, 0) {
            word.store(word_of(span), SeqCst);
        }
    }

    /// Takes the newest of the other spans out, and lets the position look there from now on.
    pub fn next(&self, position: usize) -> Option<Span> {
        let count = self.word(position, 1)?;
        let noted = count.load(SeqCst) as usize;
        if noted == 0 || noted > SPANS {
            return None;
        }
        let span = span_in(self.word(position, noted + 1)?.load(SeqCst));
        count.store(noted as u64 - 1, SeqCst);
        self.look_in(position, span);
        Some(span)
    }

    /// Notes one more span, and returns whether there was room for it.
    pub fn add(&self, position: usize, span: Span) -> bool {
        let Some(count) = self.word(position, 1) else {
            return false;
        };
        let noted = count.load(SeqCst) as usize;
        if noted >= SPANS {
            return false;
        }
        if let Some(word) = self.word(position, noted + 2) {
            word.store(word_of(span), SeqCst);
        }
        count.store(noted as u64 + 1, SeqCst);
        true
    }
}

#[inline(always)]
fn span_in(word: u64) -> Span {
    Span {
        from: (word / HALF) as usize,
        to: (word % HALF) as usize,
    }
}

#[inline(always)]
fn word_of(span: Span) -> u64 {
    (span.from as u64)
        .wrapping_mul(HALF)
        .wrapping_add(span.to as u64)
}
