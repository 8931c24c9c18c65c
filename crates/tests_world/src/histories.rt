//! Histories that the checkers accept, and such that they have to refuse, told by hand.

use crate::told::Told::{
    BagsFull, Called, CalledByEnd, CalledGone, CalledNow, Deferred, Defers, Done, EndBegins,
    EndDone, EndGoRefused, EndRefused, EndTakes, Flushes, GoRefused, Guard, Pauses, PinRefused,
    Pinned, PinnedAtBegin, PinnedFor, Pins, Registered, RegistrationBegins, RegistrationRefused,
    Released, Releases, Repinned, Repins, Resumes, Stepped, Unpinned, UnpinnedByEnd, Unpins,
};
use crate::told::{Told, entries_at_last};
use crate::wants::want;
use epoch_cells::Fault;
use epoch_world::{Entry, calls_none_twice, is_lawful, keeps_grace};
use std::alloc::Global;
use std::process::Abort;

/// What a row shows, what its checker answers, and the history.
type Row = (&'static str, bool, &'static [Told]);

/// A job is deferred under an only pin, and called at once: too early.
const EARLY: &[Told] = &[
    Registered(0),
    Pins(0),
    Pinned(0),
    Guard(0),
    Defers(Some(0)),
    Deferred(0),
    Done,
    Flushes(Some(0)),
    Called(0),
    Done,
];

/// Whether a history calls no ticket twice.
const TWICE: &[Row] = &[
    ("no call", true, &[]),
    ("of three tickets", true, &[Called(0), Called(1), Called(2)]),
    ("with another outcome", false, &[Called(0), CalledGone(0)]),
    (
        "with a deferral between them",
        false,
        &[Called(1), Called(0), Deferred(1), Called(1)],
    ),
    ("by an end", false, &[Called(4), Called(5), CalledByEnd(4)]),
    ("but once too early", true, EARLY),
];

/// Whether a history keeps grace: a call comes after each participant that was pinned at its deferral has withdrawn.
const GRACE: &[Row] = &[
    (
        "it unpinned",
        true,
        &[Pinned(1), Deferred(0), Unpinned(1), Called(0)],
    ),
    (
        "it repinned",
        true,
        &[Pinned(1), Deferred(0), Repinned(1), Called(0)],
    ),
    (
        "it pinned after the deferral",
        true,
        &[Deferred(0), Pinned(1), Called(0)],
    ),
    (
        "it unpinned and pinned again",
        true,
        &[Pinned(1), Deferred(0), Unpinned(1), Pinned(1), Called(0)],
    ),
    (
        "only the other job is blocked",
        true,
        &[Deferred(0), Pinned(1), Deferred(1), Called(0)],
    ),
    (
        "it stayed pinned",
        false,
        &[Pinned(1), Deferred(0), Called(0)],
    ),
    (
        "it repinned before the deferral",
        false,
        &[Pinned(1), Repinned(1), Deferred(0), Called(0)],
    ),
    (
        "only another one unpinned",
        false,
        &[Pinned(1), Pinned(2), Deferred(0), Unpinned(2), Called(0)],
    ),
    (
        "it unpinned after the call",
        false,
        &[Pinned(1), Deferred(0), Called(0), Unpinned(1)],
    ),
    ("in a whole history", false, EARLY),
    (
        "the second call is too early",
        false,
        &[
            Pinned(1),
            Deferred(0),
            Deferred(1),
            Unpinned(1),
            Called(0),
            Pinned(2),
            Deferred(2),
            Called(2),
        ],
    ),
];

/// A participant pins, defers a job, unpins, pins again, and calls the job at a flush.
const WHOLE: &[Row] = &[(
    "a whole history",
    true,
    &[
        Registered(0),
        Pins(0),
        Stepped(0),
        Pinned(0),
        Stepped(0),
        Guard(0),
        Defers(Some(0)),
        Deferred(0),
        Done,
        Unpins(Some(0)),
        Unpinned(0),
        Done,
        Pins(0),
        Pinned(0),
        Guard(0),
        Flushes(Some(0)),
        Called(0),
        Done,
    ],
)];

/// Where the first pin is published, and the last unpin withdraws it.
const PINS: &[Row] = &[
    (
        "only the last guard unpins",
        true,
        &[
            Registered(0),
            Pins(0),
            Pinned(0),
            Guard(0),
            Pins(0),
            Guard(1),
            Unpins(Some(0)),
            Done,
            Unpins(Some(1)),
            Unpinned(0),
            Done,
        ],
    ),
    ("a pin in no call", false, &[Registered(0), Pinned(0)]),
    (
        "a pin in an unpin",
        false,
        &[
            Registered(0),
            Pins(0),
            Pinned(0),
            Guard(0),
            Unpins(Some(0)),
            Pinned(0),
        ],
    ),
    (
        "a pin twice in one call",
        false,
        &[Registered(0), Pins(0), Pinned(0), Pinned(0)],
    ),
    (
        "a pin of another participant",
        false,
        &[Registered(0), Pins(0), PinnedFor(0, 1)],
    ),
    (
        "a pin with a guard counted",
        false,
        &[
            Registered(0),
            Pins(0),
            Pinned(0),
            Guard(0),
            Pins(0),
            Pinned(0),
        ],
    ),
    (
        "no pin before the end of the first",
        false,
        &[Registered(0), Pins(0), Guard(0)],
    ),
    (
        "an unpin in a flush",
        false,
        &[
            Registered(0),
            Pins(0),
            Pinned(0),
            Guard(0),
            Flushes(Some(0)),
            Unpinned(0),
        ],
    ),
    (
        "an unpin with another guard counted",
        false,
        &[
            Registered(0),
            Pins(0),
            Pinned(0),
            Guard(0),
            Pins(0),
            Guard(1),
            Unpins(Some(0)),
            Unpinned(0),
        ],
    ),
    (
        "no unpin before the end of the last",
        false,
        &[
            Registered(0),
            Pins(0),
            Pinned(0),
            Guard(0),
            Unpins(Some(0)),
            Done,
        ],
    ),
    (
        "an unpin before the pin of a release",
        false,
        &[Registered(0), Releases, Unpinned(0)],
    ),
];

/// Where a job is deferred, and where it is called.
const JOBS: &[Row] = &[
    (
        "a pin calls none",
        true,
        &[Registered(0), Pins(0), Pinned(0), Guard(0)],
    ),
    ("a call that is too early", true, EARLY),
    (
        "a call in a deferral",
        false,
        &[
            Registered(0),
            Pins(0),
            Pinned(0),
            Guard(0),
            Defers(Some(0)),
            Deferred(0),
            Called(0),
        ],
    ),
    (
        "a call of what was never deferred",
        false,
        &[
            Registered(0),
            Pins(0),
            Pinned(0),
            Guard(0),
            Flushes(Some(0)),
            Called(0),
        ],
    ),
    (
        "two calls",
        false,
        &[
            Registered(0),
            Pins(0),
            Pinned(0),
            Guard(0),
            Defers(Some(0)),
            Deferred(0),
            Done,
            Flushes(Some(0)),
            Called(0),
            Called(0),
        ],
    ),
    (
        "a call before its deferral",
        false,
        &[
            Registered(0),
            Pins(0),
            Pinned(0),
            Guard(0),
            Flushes(Some(0)),
            Called(0),
            Done,
            Defers(Some(0)),
            Deferred(0),
            Done,
        ],
    ),
    (
        "a call before the pin of its call",
        false,
        &[
            Registered(0),
            Pins(0),
            Pinned(0),
            Guard(0),
            Defers(Some(0)),
            Deferred(0),
            Done,
            Unpins(Some(0)),
            Unpinned(0),
            Done,
            Pins(0),
            Called(0),
        ],
    ),
    (
        "a deferral that is done has deferred",
        false,
        &[
            Registered(0),
            Pins(0),
            Pinned(0),
            Guard(0),
            Defers(Some(0)),
            Done,
        ],
    ),
    (
        "a deferral that is refused has deferred nothing",
        false,
        &[
            Registered(0),
            Pins(0),
            Pinned(0),
            Guard(0),
            Defers(Some(0)),
            Deferred(0),
            BagsFull,
        ],
    ),
    (
        "a deferral under an unprotected guard calls its job once",
        true,
        &[Registered(0), Defers(None), CalledNow, Done],
    ),
    (
        "and before its end",
        false,
        &[Registered(0), Defers(None), Done],
    ),
    (
        "and not twice",
        false,
        &[Registered(0), Defers(None), CalledNow, CalledNow],
    ),
];

/// Which answer is whose, and which call begins.
const CALLS: &[Row] = &[
    (
        "a pin answers its guard",
        false,
        &[Registered(0), Pins(0), Pinned(0), Done],
    ),
    (
        "a pin releases nothing",
        false,
        &[Registered(0), Pins(0), Pinned(0), Released],
    ),
    (
        "an unpin answers no guard",
        false,
        &[
            Registered(0),
            Pins(0),
            Pinned(0),
            Guard(0),
            Unpins(Some(0)),
            Unpinned(0),
            Guard(0),
        ],
    ),
    (
        "a call begins within another",
        false,
        &[Registered(0), Pins(0), Flushes(None)],
    ),
    (
        "a call begins beside another participant's",
        true,
        &[Registered(0), Registered(1), Pins(0), Pins(1)],
    ),
    ("a call of nobody", false, &[Pins(0)]),
    (
        "an unpin of no guard",
        false,
        &[Registered(0), Unpins(None)],
    ),
    (
        "a repin of no guard",
        true,
        &[Registered(0), Repins(None), Done],
    ),
    (
        "an unpin of a guard that isn't counted",
        false,
        &[Registered(0), Pins(0), Pinned(0), Guard(0), Unpins(Some(5))],
    ),
    (
        "a release with a guard counted",
        false,
        &[Registered(0), Pins(0), Pinned(0), Guard(0), Releases],
    ),
    (
        "a pin of a paused participant",
        false,
        &[
            Registered(0),
            Pins(0),
            Pinned(0),
            Guard(0),
            Pauses(Some(0)),
            Unpinned(0),
            Done,
            Pins(0),
        ],
    ),
    (
        "a resume of the paused guard",
        true,
        &[
            Registered(0),
            Pins(0),
            Pinned(0),
            Guard(0),
            Pauses(Some(0)),
            Unpinned(0),
            Done,
            Resumes(Some(0)),
        ],
    ),
    (
        "a resume of another guard",
        false,
        &[
            Registered(0),
            Pins(0),
            Pinned(0),
            Guard(0),
            Pauses(Some(0)),
            Unpinned(0),
            Done,
            Resumes(Some(1)),
        ],
    ),
    ("a registration doesn't begin", false, &[RegistrationBegins]),
    (
        "a call that begins performs nothing",
        false,
        &[PinnedAtBegin],
    ),
    ("an end unpins nobody", false, &[UnpinnedByEnd]),
    (
        "a call refused at its begin is no call",
        false,
        &[PinRefused(Fault::NotRegistered), Registered(0), Pinned(0)],
    ),
    (
        "a guard that isn't the lowest",
        false,
        &[Registered(0), Pins(0), Pinned(0), Guard(1)],
    ),
    ("a position that isn't the lowest", false, &[Registered(1)]),
    (
        "a position that is free again",
        true,
        &[
            Registered(0),
            Registered(1),
            Releases,
            Pinned(0),
            Unpinned(0),
            Released,
            Registered(0),
        ],
    ),
];

/// Which fault is whose.
const FAULTS: &[Row] = &[
    (
        "a pin of nobody is refused",
        true,
        &[PinRefused(Fault::NotRegistered)],
    ),
    (
        "but as that of nobody",
        false,
        &[PinRefused(Fault::TooManyGuards)],
    ),
    (
        "a pin that has to be accepted",
        false,
        &[Registered(0), PinRefused(Fault::TooManyGuards)],
    ),
    (
        "a pin within another is busy",
        true,
        &[Registered(0), Pins(0), PinRefused(Fault::Busy)],
    ),
    (
        "and not after it",
        false,
        &[
            Registered(0),
            Pins(0),
            Pinned(0),
            Guard(0),
            PinRefused(Fault::Busy),
        ],
    ),
    (
        "a pin of a paused participant is busy",
        true,
        &[
            Registered(0),
            Pins(0),
            Pinned(0),
            Guard(0),
            Pauses(Some(0)),
            Unpinned(0),
            Done,
            PinRefused(Fault::Busy),
        ],
    ),
    (
        "a pin finds no cells wanting",
        false,
        &[Registered(0), PinRefused(Fault::CellsFull)],
    ),
    (
        "a deferral finds the bags full",
        true,
        &[
            Registered(0),
            Pins(0),
            Pinned(0),
            Guard(0),
            Defers(Some(0)),
            GoRefused(Fault::BagsFull),
        ],
    ),
    (
        "and no cells wanting",
        false,
        &[
            Registered(0),
            Pins(0),
            Pinned(0),
            Guard(0),
            Defers(Some(0)),
            GoRefused(Fault::CellsFull),
        ],
    ),
    (
        "a Go of no call is idle",
        true,
        &[Registered(0), GoRefused(Fault::Idle)],
    ),
    ("but not that of nobody", false, &[GoRefused(Fault::Idle)]),
    (
        "a table is full or not",
        true,
        &[RegistrationRefused(Fault::TableFull)],
    ),
    ("and never busy", false, &[RegistrationRefused(Fault::Busy)]),
];

/// When an end begins, and takes its steps.
const ENDS: &[Row] = &[
    (
        "an end calls the job that is left",
        true,
        &[
            Registered(0),
            Pins(0),
            Pinned(0),
            Guard(0),
            Defers(Some(0)),
            Deferred(0),
            Done,
            Unpins(Some(0)),
            Unpinned(0),
            Done,
            Releases,
            Pinned(0),
            Unpinned(0),
            Released,
            EndBegins,
            EndTakes,
            CalledByEnd(0),
            EndDone(1),
        ],
    ),
    (
        "a call by no end",
        false,
        &[
            Registered(0),
            Pins(0),
            Pinned(0),
            Guard(0),
            Defers(Some(0)),
            Deferred(0),
            Done,
            Unpins(Some(0)),
            Unpinned(0),
            Done,
            Releases,
            Pinned(0),
            Unpinned(0),
            Released,
            CalledByEnd(0),
        ],
    ),
    ("a second end", false, &[EndBegins, EndBegins]),
    (
        "a second end is refused",
        true,
        &[EndBegins, EndRefused(Fault::Ended)],
    ),
    (
        "an end with a participant left",
        false,
        &[Registered(0), EndBegins],
    ),
    (
        "such an end is refused",
        true,
        &[Registered(0), EndRefused(Fault::ParticipantsLeft)],
    ),
    (
        "an end that has to be accepted",
        false,
        &[EndRefused(Fault::ParticipantsLeft)],
    ),
    (
        "a step of no end is refused",
        true,
        &[EndGoRefused(Fault::Idle)],
    ),
    (
        "a step of an end is not",
        false,
        &[EndBegins, EndGoRefused(Fault::Idle)],
    ),
    (
        "a step after the end is done",
        false,
        &[EndBegins, EndDone(0), EndTakes],
    ),
    (
        "such a step is refused",
        true,
        &[EndBegins, EndDone(0), EndGoRefused(Fault::Idle)],
    ),
    (
        "a registration after an end began",
        false,
        &[EndBegins, Registered(0)],
    ),
    (
        "such a registration is refused",
        true,
        &[EndBegins, RegistrationRefused(Fault::Ended)],
    ),
    (
        "but not for want of a position",
        false,
        &[EndBegins, RegistrationRefused(Fault::TableFull)],
    ),
];

/// A checker of histories.
#[derive(Clone, Copy)]
enum Checker {
    CallsNoneTwice,
    KeepsGrace,
    IsLawful,
}

/// What this checker answers. It takes no memory.
fn want_checked(rt: &impl Abort, shows: &str, checker: Checker, entries: &[Entry], wanted: bool) {
    let answer = match checker {
        Checker::CallsNoneTwice => calls_none_twice(entries),
        Checker::KeepsGrace => keeps_grace(entries),
        Checker::IsLawful => is_lawful(entries),
    };
    want(rt, shows, answer, wanted);
}

/// What the checker answers to each row. Whichever allocation is refused to the histories, it answers the same.
fn expect(rt: &impl Abort, alloc: Global, checker: Checker, rows: &[Row]) {
    for (shows, answer, history) in rows {
        let entries = entries_at_last(alloc, history).expect(rt, "memory for a history");
        want_checked(rt, shows, checker, &entries, *answer);
    }
}

#[test]
fn two_calls_of_a_ticket_are_refused(rt: HostRuntime) {
    expect(&rt, rt.alloc(), Checker::CallsNoneTwice, TWICE);
}

#[test]
fn a_call_while_somebody_stays_pinned_is_refused(rt: HostRuntime) {
    expect(&rt, rt.alloc(), Checker::KeepsGrace, GRACE);
}

#[test]
fn a_whole_history_passes(rt: HostRuntime) {
    expect(&rt, rt.alloc(), Checker::IsLawful, WHOLE);
    expect(&rt, rt.alloc(), Checker::KeepsGrace, WHOLE);
    expect(&rt, rt.alloc(), Checker::CallsNoneTwice, WHOLE);
}

#[test]
fn pins_stand_only_where_guards_allow(rt: HostRuntime) {
    expect(&rt, rt.alloc(), Checker::IsLawful, PINS);
}

#[test]
fn jobs_are_deferred_and_called_once_and_in_order(rt: HostRuntime) {
    expect(&rt, rt.alloc(), Checker::IsLawful, JOBS);
}

#[test]
fn calls_begin_and_answer_only_where_they_may(rt: HostRuntime) {
    expect(&rt, rt.alloc(), Checker::IsLawful, CALLS);
}

#[test]
fn steps_are_refused_with_their_own_faults(rt: HostRuntime) {
    expect(&rt, rt.alloc(), Checker::IsLawful, FAULTS);
}

#[test]
fn an_end_begins_once_and_when_all_have_left(rt: HostRuntime) {
    expect(&rt, rt.alloc(), Checker::IsLawful, ENDS);
}
