//! Calls of cells, bags, queues and arrays. They take no memory.

use crate::memory::made::values_at_last;
use crate::wants::{want, want_err, want_no_memory, want_ok};
use epoch::atomic::Array;
use epoch::bag::{Bag, SealedBag};
use epoch::cells::Removal;
use epoch::collector::end_bags;
use epoch::epoch::Epoch;
use epoch::queue::BagQueue;
use epoch::{Cells, Fault, Job, Name};
use std::alloc::Global;
use std::process::Abort;

/// One cell, a queue with room for one bag, and an array of two elements.
type Stores = (Cells<u64>, BagQueue<u64>, Array<u64>);

fn new_stores(alloc: Global) -> Result<Stores, Fault> {
    let cells = Cells::new(alloc, 1, 0)?;
    let queue = BagQueue::new(alloc, 1)?;
    let array = Array::new(alloc, 2)?;
    Ok((cells, queue, array))
}

/// The stores, for which memory is asked once more if it is refused.
fn stores_at_last(rt: &impl Abort, alloc: Global) -> Stores {
    match new_stores(alloc) {
        Ok(stores) => stores,
        Err(fault) => {
            want_no_memory(rt, fault);
            new_stores(alloc).expect(rt, "memory for stores")
        }
    }
}

/// The value of this name.
fn read(cells: &Cells<u64>, name: Name) -> Option<u64> {
    let reading = cells.read(name)?;
    let value = *reading.get();
    reading.leave();
    Some(value)
}

/// Sets the value of this name, and answers the one before.
fn write(cells: &Cells<u64>, name: Name, value: u64) -> Option<u64> {
    let mut writing = cells.write(name)?;
    let before = *writing.get();
    *writing.get_mut() = value;
    writing.leave();
    Some(before)
}

/// An end of a bag with the removal of this name, of which it is the one job.
fn want_removed(rt: &impl Abort, cells: &Cells<u64>, name: Name) {
    let mut bag: Bag<Job> = Bag::new();
    let pushed = bag.try_push(Job::Remove(name)).is_ok();
    want(rt, "a job", pushed, true);
    let mut bags = [Some(bag.seal(Epoch::starting()))];
    want(rt, "an end of bags", end_bags(cells, &mut bags), 1);
    want(rt, "a value removed", cells.remove(name), Removal::Gone);
}

/// The value finds no cell, and is handed back.
fn want_back(rt: &impl Abort, cells: &Cells<u64>, value: Box<u64>) -> Box<u64> {
    let back = want_err(rt, "the cell is used", cells.place(value));
    want(rt, "why it is refused", back.fault, Fault::CellsFull);
    back.value
}

/// Two values come to stand in the cell, one behind the other, and the second one is removed.
fn come_to_the_cell(rt: &impl Abort, cells: &Cells<u64>, first: Box<u64>, second: Box<u64>) {
    let name = want_ok(rt, "the cell is free", cells.place(first));
    let second = want_back(rt, cells, second);
    want(rt, "a value read", read(cells, name), Some(10));
    want(rt, "a value written", write(cells, name, 11), Some(10));
    let taken = cells.take(name).map(|value| *value);
    want(rt, "a value taken", taken, Some(11));
    let next = want_ok(rt, "the cell is free again", cells.place(second));
    want(rt, "the turn before", cells.remove(name), Removal::Gone);
    want_removed(rt, cells, next);
}

/// A bag of this one job, sealed with epoch 0.
fn sealed(rt: &impl Abort, job: u64) -> SealedBag<u64> {
    let mut bag: Bag<u64> = Bag::with_limit(1);
    want(rt, "a job", bag.try_push(job), Ok(()));
    want(rt, "a second one", bag.try_push(0), Err(0));
    bag.seal(Epoch::starting())
}

/// The one job of the bag that comes out of the queue, where it is expired in this epoch.
fn popped(queue: &mut BagQueue<u64>, epoch: Epoch) -> Option<u64> {
    let mut bag = queue.try_pop_if(|bag| bag.is_expired(epoch))?;
    bag.take_next()
}

/// The one bag of a queue is taken when it is expired.
fn come_to_the_queue(rt: &impl Abort, queue: &mut BagQueue<u64>) {
    let pushed = queue.push(sealed(rt, 1)).is_ok();
    want(rt, "a bag", pushed, true);
    let pushed = queue.push(sealed(rt, 2)).is_ok();
    want(rt, "a second one", pushed, false);
    let early = popped(queue, Epoch::new(1));
    want(rt, "one epoch behind the seal", early, None);
    let late = popped(queue, Epoch::new(2));
    want(rt, "two epochs behind it", late, Some(1));
    want(rt, "an empty queue", queue.is_empty(), true);
}

/// Two elements are put at one place of an array, and none past its end.
fn come_to_the_array(rt: &impl Abort, array: &mut Array<u64>) {
    want(rt, "its length", array.len(), 2);
    want(rt, "a first element", array.set(1, 5), Ok(None));
    want(rt, "another one there", array.set(1, 6), Ok(Some(5)));
    want(rt, "past its end", array.set(2, 7), Err(7));
    let elements = (array.get(0).copied(), array.get(1).copied());
    want(rt, "the elements", elements, (None, Some(6)));
}

#[test]
fn calls_of_stores_take_no_memory(rt: HostRuntime) {
    let (first, second, _third) = values_at_last(&rt, rt.alloc());
    let (cells, mut queue, mut array) = stores_at_last(&rt, rt.alloc());
    come_to_the_cell(&rt, &cells, first.into_box(), second.into_box());
    come_to_the_queue(&rt, &mut queue);
    come_to_the_array(&rt, &mut array);
}
