use super::*;

// Updates to a pointer with tag 1, in at most this many tries. An update stops where the tag is 1.
fn update<'g>(
    atomic: &Atomic<u64>,
    tries: u64,
    guard: &'g Guard<'_, u64>,
) -> Result<Shared<'g, u64>, UpdateFault<'g, u64>> {
    atomic.fetch_update(SeqCst, SeqCst, tries, guard, |old| match old.tag() {
        1 => None,
        _ => Some(old.with_tag(1)),
    })
}

// What no clause says of null: what an Atomic loads and takes back of it. Calls that change the tag answer what was
// there before.
pub(crate) fn tags_of_null(rt: &impl Abort, alloc: Global, guard: &Guard<'_, u64>) {
    let null = Shared::<u64>::null();
    let atomic = Atomic::from(null.with_tag(3));
    want_pointer(
        rt,
        "it is loaded",
        atomic.load(SeqCst, guard),
        null.with_tag(3),
    );
    want_tag(rt, "an and", atomic.fetch_and(2, SeqCst, guard), 3);
    want_tag(rt, "an or", atomic.fetch_or(1, SeqCst, guard), 2);
    want_tag(rt, "a xor", atomic.fetch_xor(6, SeqCst, guard), 3);
    want_pointer(
        rt,
        "after a xor",
        atomic.load(SeqCst, guard),
        null.with_tag(5),
    );
    let won = want_ok(rt, "the update is made", update(&atomic, 3, guard));
    want_tag(rt, "an update", won, 5);
    let stopped = "Err(Stopped(Shared { name: None, tag: 1, .. }))";
    want_shown(rt, alloc, &update(&atomic, 3, guard), stopped);
    let ran_out = "Err(RanOut(Shared { name: None, tag: 1, .. }))";
    want_shown(rt, alloc, &update(&atomic, 0, guard), ran_out);
    want_true(rt, "nothing owned", atomic.into_owned(guard).is_none());
    let first = Atomic::<u64>::default().load(SeqCst, guard);
    want_pointer(rt, "the default", first, null);
}
