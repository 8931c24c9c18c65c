//! Whether what calls told fits a list, or an entry of a map, that takes each of them at one moment between its begin
//! and its end.
use crate::structures::{Asked, Told, key_asked};
use epoch_cells::Fault;

/// The most calls.
const MOST: usize = 64;

/// Which value is in front.
#[derive(Clone, Copy, PartialEq)]
pub(crate) enum Order {
    /// The one that was put in last.
    LastIn,
    /// The one that was put in first.
    FirstIn,
    /// The only one: another isn't put in while it is there.
    Alone,
}

/// A call that is over: what it was asked for, what it told, and the numbers of its first and its last step.
#[derive(Clone, Copy)]
pub(crate) struct Past {
    pub asked: Asked,
    pub told: Told,
    pub begun: u64,
    pub ended: u64,
}

/// Values that were put in, and the numbers of the first one that is left and of the next one to come.
#[derive(Clone, Copy)]
struct Values {
    order: Order,
    values: [u64; MOST],
    left: usize,
    next: usize,
}

impl Values {
    /// The value in front.
    fn front(&self) -> Option<u64> {
        if self.left >= self.next {
            return None;
        }
        let number = match self.order {
            Order::LastIn => self.next - 1,
            _ => self.left,
        };
        self.values.get(number).copied()
    }

    /// The value is put in.
    fn with(mut self, value: u64) -> Option<Values> {
        let next = self.next;
        *self.values.get_mut(next)? = value;
        self.next = next.checked_add(1)?;
        Some(self)
    }

    /// The front is taken out, where there is one.
    fn without(mut self) -> Values {
        match self.order {
            Order::LastIn => self.next = self.next.saturating_sub(1),
            _ => self.left = self.left.saturating_add(1),
        }
        self
    }

    /// What is left after the call, or `None` where it can't have told so.
    fn after(self, asked: Asked, told: Told) -> Option<Values> {
        let front = self.front();
        let free = front.is_none() || self.order != Order::Alone;
        match (asked, told) {
            (Asked::Put(value, _), Told::PutIn) if free => self.with(value),
            (Asked::Put(_, _), Told::AlreadyThere(value)) if front == Some(value) => Some(self),
            (Asked::Take(_, _), Told::TookOut(value)) if front == Some(value) => Some(
                self.without(),
            ),
            (Asked::Find(_, _), Told::Found(value)) if front == Some(value) => Some(self),
            (Asked::Take(_, _) | Asked::Find(_, _), Told::NoneThere) if front.is_none() => Some(
                self,
            ),
            (Asked::Put(_, _), Told::Failed(Fault::CellsFull)) => Some(self),
            (_, Told::Failed(Fault::TriesOut)) => Some(self),
            _ => None,
        }
    }
}

/// Whether the call is one of this key that is still to come.
fn waits(number: usize, call: Past, taken: &[bool; MOST], key: u64) -> bool {
    key_asked(call.asked) == key && !taken.get(number).copied().unwrap_or(true)
}

/// Whether no call of the key that is still to come was over before this one began.
fn may_be_next(calls: &[Past], taken: &[bool; MOST], key: u64, next: Past) -> bool {
    for (number, call) in calls.iter().enumerate() {
        if waits(number, *call, taken, key) && call.ended < next.begun {
            return false;
        }
    }
    true
}

/// Whether the calls of the key that are still to come fit the values in some order. `left` is how many they are.
fn fit_from(calls: &[Past], taken: &[bool; MOST], key: u64, values: Values, left: usize) -> bool {
    if left == 0 {
        return true;
    }
    for (number, call) in calls.iter().enumerate() {
        if !waits(number, *call, taken, key) || !may_be_next(calls, taken, key, *call) {
            continue;
        }
        let Some(after) = values.after(call.asked, call.told) else {
            continue;
        };
        let mut with = *taken;
        if let Some(place) = with.get_mut(number) {
            *place = true;
        }
        if fit_from(calls, &with, key, after, left - 1) {
            return true;
        }
    }
    false
}

/// Whether the calls of this key fit values in this order, none of which is there at first, where none of the calls
/// comes before another that was over when it began. There are at most 64 calls of all keys.
pub(crate) fn fit(calls: &[Past], order: Order, key: u64) -> bool {
    let mut count: usize = 0;
    for call in calls {
        if key_asked(call.asked) == key {
            count = count.saturating_add(1);
        }
    }
    let none = Values {
        order,
        values: [0; MOST],
        left: 0,
        next: 0,
    };
    calls.len() <= MOST && fit_from(calls, &[false; MOST], key, none, count)
}
