//! Threads that share cells, each for a bounded number of turns.
ghost use Rattle.std.specs.Prelude.{◌≤◌};

use crate::threads::{Tracked, Work, counts_of, ones_and_more, side_by_side};
use crate::wants::want;
use epoch_cells::{Cells, Name};
use std::alloc::Global;
use std::process::Abort;
use std::sync::Wait;
use std::sync::atomic::AtomicU64;
use std::sync::atomic::Ordering::SeqCst;
use std::thread::Threads;

const THREADS: u64 = 4;

const TURNS: u64 = 20_000;

const BOARD: usize = 8;

// What the threads share: where names are shown, and what was seen wrong.
#[derive(Drop)]
struct Turns<'a, 'd> {
    alloc: Global,
    cells: &'a Cells<Tracked<'d>>,
    board: &'a [AtomicU64],
    drops: &'d [AtomicU64],
    made: &'a AtomicU64,
    wrong: &'a AtomicU64,
}

// A ticket with the name of its value, in one word: at most 2^8 slots and 2^24 turns.
fn shown(ticket: u64, name: Name) -> u64 {
    (ticket % 0x1_0000_0000) * 0x1_0000_0000
        + (name.turn() as u64 % 0x100_0000) * 0x100
        + name.slot() as u64 % 0x100
}

impl Turns<'_, '_> {
    fn check(&self, is_right: bool) {
        if !is_right {
            self.wrong.fetch_add(1, SeqCst);
        }
    }

    // Places a value of this ticket and shows its name, if a slot is free.
    fn place(&self, ticket: u64, at: &AtomicU64) {
        let Ok(boxed) = Box::new(self.alloc, Tracked::new(ticket, self.drops)) else {
            self.check(false);
            return;
        };
        self.made.fetch_add(1, SeqCst);
        if let Ok(name) = self.cells.place(boxed) {
            at.store(shown(ticket, name), SeqCst);
        }
    }

    fn read(&self, name: Name, ticket: u64) {
        if let Some(reading) = self.cells.read(name) {
            self.check(reading.get().is_whole(ticket));
            reading.leave();
        }
    }

    fn write(&self, name: Name, ticket: u64) {
        if let Some(mut writing) = self.cells.write(name) {
            self.check(writing.get().is_whole(ticket));
            writing.get_mut().raise();
            writing.leave();
        }
    }

    fn take(&self, name: Name, ticket: u64) {
        if let Some(value) = self.cells.take(name) {
            self.check(value.is_whole(ticket));
        }
    }

    // Does one thing that `random` says, at one of the names that are shown.
    fn act(&self, ticket: u64, random: u64) {
        let Some(at) = self.board.get((random / 0x1_0000 % 0x100) as usize % BOARD) else {
            return;
        };
        let word = at.load(SeqCst);
        let (slot, turn) = ((word % 0x100) as u32, (word / 0x100 % 0x100_0000) as u32);
        let Some(name) = Name::new(slot, turn) else {
            self.place(ticket, at);
            return;
        };
        let ticket_shown = word / 0x1_0000_0000;
        match random / 0x1_0000_0000 % 8 {
            0 | 1 => self.place(ticket, at),
            2 | 3 => self.read(name, ticket_shown),
            4 | 5 => self.write(name, ticket_shown),
            6 => self.take(name, ticket_shown),
            _ => {
                let _ = self.cells.remove(name);
            }
        }
    }
}

impl Work for Turns<'_, '_> {
    // The turns of one thread, each with a ticket of its own.
    fn work(&self, number: u64) {
        let mut random = number;
        for turn in 0..TURNS {
            random = random
                .wrapping_mul(6_364_136_223_846_793_005)
                .wrapping_add(1_442_695_040_888_963_407);
            self.act(number.wrapping_mul(TURNS).wrapping_add(turn), random);
        }
    }
}

// Four threads share these cells.
fn start<'a, 'd, R: Threads + Wait + Sync>(
    rt: &R,
    alloc: Global,
    cells: &'a Cells<Tracked<'d>>,
    board: &'a [AtomicU64],
    drops: &'d [AtomicU64],
    made: &'a AtomicU64,
    wrong: &'a AtomicU64,
) {
    let turns = Turns {
        alloc,
        cells,
        board,
        drops,
        made,
        wrong,
    };
    side_by_side(rt, THREADS, &turns);
}

// Of a store of so many slots, nothing is seen wrong, and each value that is made is dropped once.
fn race<R: Abort + Threads + Wait + Sync>(rt: &R, alloc: Global, slots: u32)
    requires { slots ≤ 16777215 }
{
    let drops = counts_of(rt, alloc, (THREADS * TURNS) as usize);
    let board = counts_of(rt, alloc, BOARD);
    let (made, wrong) = (AtomicU64::new(0), AtomicU64::new(0));
    let cells = Cells::new(alloc, slots, 0).expect(rt, "memory for cells");
    start(rt, alloc, &cells, &board, &drops, &made, &wrong);
    drop(cells);
    want(rt, "nothing wrong", wrong.load(SeqCst), 0);
    let each_once = (made.load(SeqCst), 0);
    want(rt, "the drops", ones_and_more(&drops), each_once);
}

#[test]
fn threads_see_only_values_of_the_names_asked_for(rt: HostRuntime) {
    race(&rt, rt.alloc(), 1);
    race(&rt, rt.alloc(), 3);
    race(&rt, rt.alloc(), 8);
}
