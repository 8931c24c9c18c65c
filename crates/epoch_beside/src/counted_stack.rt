//! Rounds on a stack whose values are taken out of its nodes.
use crate::counted::collector_for;
use crate::counted_idle::CountedIdle;
use crate::rounds::{Round, RoundSize, all_rounds, found};
use epoch::Collector;
use epoch_stack::{Node, Stack};
use std::alloc::Global;
use std::io;
use std::sync::Wait;
use std::thread::Threads;
use std::time::Clock;

/// Tries of a push or a pop. Those of crossbeam-epoch's side have no end.
const TRIES: u32 = 64;

impl<'c> CountedIdle<'c, Node<u64>> {
    /// Pushes and pops, each under a pin of its own. Returns how many pops found a value.
    fn pushes(&mut self, alloc: Global, stack: &Stack<'_, u64>, turns: u64) -> u64 {
        let mut done: u64 = 0;
        for turn in 0..turns {
            self.push(alloc, stack, turn);
            done = done.wrapping_add(self.pop(stack));
        }
        done
    }

    #[inline(always)]
    fn push(&mut self, alloc: Global, stack: &Stack<'_, u64>, value: u64) {
        let guard = self.handle.pin();
        let _ = stack.push(alloc, &mut self.handle, &guard, value, TRIES);
        self.handle.unpin(guard);
    }

    #[inline(always)]
    fn pop(&mut self, stack: &Stack<'_, u64>) -> u64 {
        let guard = self.handle.pin();
        let found = found(&stack.pop(&mut self.handle, &guard, TRIES));
        self.handle.unpin(guard);
        found
    }
}

/// What the threads of a round share.
#[derive(Drop)]
struct StackRound<'c, 'w> {
    alloc: Global,
    collector: &'c Collector<Node<u64>>,
    stack: &'w Stack<'c, u64>,
}

impl<'c, 'w> Round for StackRound<'c, 'w> {
    type Participant = CountedIdle<'c, Node<u64>>;

    fn register(&self) -> Option<CountedIdle<'c, Node<u64>>> {
        CountedIdle::register(self.collector)
    }

    fn turns<R: Wait>(&self, _rt: &R, idle: &mut CountedIdle<'c, Node<u64>>, turns: u64) -> u64 {
        idle.pushes(self.alloc, self.stack, turns)
    }

    fn leave<R: Wait>(&self, rt: &R, idle: CountedIdle<'c, Node<u64>>) {
        idle.leave(rt);
    }
}

fn rounds_on<R: Clock + Threads + Wait + Sync>(
    rt: &R,
    alloc: Global,
    size: RoundSize,
    collector: &Collector<Node<u64>>,
    times: &mut [u64],
) -> u64 {
    let stack = Stack::new(collector);
    let round = StackRound {
        alloc,
        collector,
        stack: &stack,
    };
    all_rounds(rt, size, &round, times)
}

/// Makes rounds of pushes and pops.
pub fn rounds<R: Clock + Threads + Wait + Sync>(
    rt: &R,
    alloc: Global,
    size: RoundSize,
    participants: u32,
    times: &mut [u64],
) -> io::Result<u64> {
    let collector = collector_for(alloc, size, participants)?;
    let done = rounds_on(rt, alloc, size, &collector, times);
    collector.end();
    Ok(done)
}
