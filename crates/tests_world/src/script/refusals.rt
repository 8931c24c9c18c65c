//! One script, of which each read, each write and each flush is refused in turn, once, and a picture that can't be
//! written. These tests take memory of their own, and want all of it.
use crate::wants::want;
use epoch_script::{Ending, run, tell_usage};
use std::alloc::Global;
use std::io;
use std::io::{BufReader, BufWriter, ErrorKind, Read, Write};
use std::process::Abort;

/// The script. The first pin publishes epoch 0 and advances to 1; with two places a flush is eight steps and its end;
/// the bag is sealed with 1 and stays for the end.
pub const SCRIPT: &str =
    "shape 1 0 0 0 2 1 0 0\nregister\n\ncall 0 pin\nword 0\nepoch\ncall 0 defer 0\n\
    begin 0 flush 0\ngo 0 9\ncall 0 unpin 0\ncall 0 release\nendall\n";

/// What it prints.
pub const PRINTED: &str =
    "registered 0\npinned 0\nguard 0\nword 1\nepoch 1\ndeferred 0\ndone\nbegan\n\
    stepped\nstepped\nstepped\nstepped\nstepped\nstepped\nstepped\nstepped\ndone\nunpinned 0\ndone\n\
    pinned 0\nunpinned 0\nreleased\ncalled 0 ran\nended 1\n";

/// How many bytes each line has, with its line feed, and how many it prints.
pub const LINES: &[(usize, usize)] = &[
    (22, 0),
    (9, 13),
    (1, 0),
    (11, 17),
    (7, 7),
    (6, 8),
    (15, 16),
    (16, 6),
    (7, 69),
    (15, 16),
    (15, 29),
    (7, 21),
];

/// How many lines print something.
pub const PRINTING: usize = 10;

/// How many bytes are printed if only this many bytes of the script are read: a line is done when its line feed is
/// there.
fn printed_by_reads(lines: &[(usize, usize)], bytes: usize) -> usize {
    let (mut printed, mut left) = (0usize, bytes);
    for (line, prints) in lines {
        if left < *line {
            break;
        }
        left -= *line;
        printed = printed.saturating_add(*prints);
    }
    printed
}

/// How many bytes are printed by this many writes and flushes, where a write takes as many bytes at most: the answers
/// of a line are so many writes as they need, and one flush.
fn printed_by_writes(lines: &[(usize, usize)], calls: usize, at_once: usize) -> usize {
    let (mut printed, mut left) = (0usize, calls);
    for (_, prints) in lines {
        printed = printed.saturating_add(left.saturating_mul(at_once).min(*prints));
        let needed = prints.div_ceil(at_once.max(1));
        if needed > 0 {
            if left <= needed {
                break;
            }
            left -= needed + 1;
        }
    }
    printed
}

/// What a run of a script gave.
#[derive(Drop)]
pub struct ScriptOutcome {
    pub ending: Ending,
    pub answers: Vec<u8>,
    pub faults: Vec<u8>,
}

/// The run ended so, printed this many bytes of what the script prints, and told of no bad line. `refused` says what
/// was refused.
pub fn want_ended(
    rt: &impl Abort,
    refused: (usize, usize),
    outcome: &ScriptOutcome,
    ending: Ending,
    printed: usize,
) {
    let answers: &[u8] = &outcome.answers;
    let told = (answers.len(), outcome.faults.len());
    let seen = (refused, outcome.ending, told);
    want(rt, "how it ends", seen, (refused, ending, (printed, 0)));
    let is_begin = PRINTED.as_bytes().starts_with(answers);
    want(rt, "the answers", (refused, is_begin), (refused, true));
}

/// Refuses the call after this many, and lets those before it and after it pass.
#[derive(Drop)]
struct Gate {
    before: usize,
    kind: ErrorKind,
}

impl Gate {
    fn pass(&mut self) -> io::Result<()> {
        if self.before == 0 {
            self.before = NEVER;
            return Err(io::Error::from(self.kind));
        }
        self.before -= 1;
        Ok(())
    }
}

/// More calls than there are.
const NEVER: usize = usize::MAX;

/// Gives its bytes, this many a read at most.
#[derive(Drop)]
struct Source<'s> {
    bytes: &'s [u8],
    at_once: usize,
    gate: Gate,
}

impl Read for Source<'_> {
    fn read(&mut self, buf: &mut [u8]) -> io::Result<usize> {
        self.gate.pass()?;
        let room = self.at_once.min(buf.len());
        self.bytes.read(&mut buf[..room])
    }
}

/// Keeps what is written to it, this many bytes a write at most.
#[derive(Drop)]
struct Sink {
    taken: Vec<u8>,
    at_once: usize,
    gate: Gate,
}

impl Write for Sink {
    fn write(&mut self, buf: &[u8]) -> io::Result<usize> {
        self.gate.pass()?;
        let count = self.at_once.min(buf.len());
        self.taken.extend_from_slice(&buf[..count])?;
        Ok(count)
    }

    fn flush(&mut self) -> io::Result<()> {
        self.gate.pass()
    }
}

/// Runs the script over streams that take and give so many bytes at once. The call after this many is refused: a read,
/// a write or flush of the answers, or one of what is told of a bad line.
fn run_refused(
    rt: &impl Abort,
    alloc: Global,
    (script, at_once): (&str, usize),
    (reads, writes, tellings): (usize, usize, usize),
    kind: ErrorKind,
) -> ScriptOutcome {
    let mut reader = reader_of(rt, alloc, (script, at_once), reads, kind);
    let sink = empty_sink(alloc, at_once, writes, kind);
    let mut answers = BufWriter::new(alloc, sink).expect(rt, "memory for a writer");
    let mut faults = empty_sink(alloc, at_once, tellings, kind);
    let ending = run(alloc, &mut reader, &mut answers, &mut faults);
    ScriptOutcome {
        ending,
        answers: answers.into_parts().0.taken,
        faults: faults.taken,
    }
}

/// A reader of the script.
fn reader_of<'s>(
    rt: &impl Abort,
    alloc: Global,
    (script, at_once): (&'s str, usize),
    before: usize,
    kind: ErrorKind,
) -> BufReader<Source<'s>> {
    let source = Source {
        bytes: script.as_bytes(),
        at_once,
        gate: Gate { before, kind },
    };
    BufReader::with_capacity(alloc, at_once, source).expect(rt, "memory for a reader")
}

/// An empty sink.
fn empty_sink(alloc: Global, at_once: usize, before: usize, kind: ErrorKind) -> Sink {
    Sink {
        taken: Vec::new(alloc),
        at_once,
        gate: Gate { before, kind },
    }
}

/// The call after this many is refused for this reason, after which only so many bytes are printed.
fn want_refused(
    rt: &impl Abort,
    alloc: Global,
    at_once: usize,
    (reads, writes): (usize, usize),
    (kind, ending, printed): (ErrorKind, Ending, usize),
) {
    let before = (reads, writes, NEVER);
    let outcome = run_refused(rt, alloc, (SCRIPT, at_once), before, kind);
    want_ended(rt, (reads, writes), &outcome, ending, printed);
}

/// The call after this many is refused, once for each reason, after which only so many bytes are printed.
fn want_each_refused(
    rt: &impl Abort,
    alloc: Global,
    at_once: usize,
    before: (usize, usize),
    printed: usize,
) {
    let failed = (ErrorKind::BrokenPipe, Ending::StreamFailed, printed);
    want_refused(rt, alloc, at_once, before, failed);
    let refused = (ErrorKind::OutOfMemory, Ending::NoMemory, printed);
    want_refused(rt, alloc, at_once, before, refused);
}

/// The script is read this many bytes at once, and each read is refused in turn, the one at its end too.
fn expect_each_read_refused(rt: &impl Abort, alloc: Global, at_once: usize) {
    for reads in 0..=SCRIPT.len().div_ceil(at_once.max(1)) {
        let bytes = reads.saturating_mul(at_once).min(SCRIPT.len());
        let printed = printed_by_reads(LINES, bytes);
        want_each_refused(rt, alloc, at_once, (reads, NEVER), printed);
    }
}

#[test]
fn a_refused_read_ends_the_script_after_the_lines_before_it(rt: HostRuntime) {
    expect_each_read_refused(&rt, rt.alloc(), 1);
    expect_each_read_refused(&rt, rt.alloc(), 7);
    expect_each_read_refused(&rt, rt.alloc(), 64);
    expect_each_read_refused(&rt, rt.alloc(), 1_000)
}

/// Each of so many writes and flushes of the answers is refused in turn, where a write takes this many bytes at most.
/// There is no further one.
fn expect_each_write_refused(rt: &impl Abort, alloc: Global, at_once: usize, calls: usize) {
    for writes in 0..calls {
        let printed = printed_by_writes(LINES, writes, at_once);
        want_each_refused(rt, alloc, at_once, (NEVER, writes), printed);
    }
    let done = (ErrorKind::BrokenPipe, Ending::Finished, PRINTED.len());
    want_refused(rt, alloc, at_once, (NEVER, calls), done);
}

#[test]
fn a_refused_write_ends_the_script_after_the_lines_before_it(rt: HostRuntime) {
    let calls = PRINTED.len().saturating_add(PRINTING);
    expect_each_write_refused(&rt, rt.alloc(), 1, calls);
    expect_each_write_refused(&rt, rt.alloc(), 1_000, 2 * PRINTING)
}

/// A script whose last line is no step.
const BAD: &str = "shape 1 0 0 0 1 1 0 0\nregister\nnothing\n";

/// Each write and flush is refused in turn by which a bad line is told of, as long as there is a further one.
fn expect_telling_refused(
    rt: &impl Abort,
    alloc: Global,
    at_once: usize,
    (kind, refused): (ErrorKind, Ending),
) {
    for calls in 0..100usize {
        let before = (NEVER, NEVER, calls);
        let ending = run_refused(rt, alloc, (BAD, at_once), before, kind).ending;
        if calls > 1 && ending == Ending::NotAStep(3) {
            return;
        }
        want(rt, "how it ends", (calls, ending), (calls, refused));
    }
    panic!(rt; "what is told has no end")
}

#[test]
fn a_bad_line_that_cannot_be_told_of_ends_the_script_as_a_refused_write(rt: HostRuntime) {
    let failed = (ErrorKind::BrokenPipe, Ending::StreamFailed);
    expect_telling_refused(&rt, rt.alloc(), 1, failed);
    expect_telling_refused(&rt, rt.alloc(), 1_000, failed);
    let refused = (ErrorKind::OutOfMemory, Ending::NoMemory);
    expect_telling_refused(&rt, rt.alloc(), 1, refused);
    expect_telling_refused(&rt, rt.alloc(), 1_000, refused);
}

/// The exit status if the first write of a picture is refused for this reason.
fn status_of_picture(alloc: Global, kind: ErrorKind) -> u8 {
    let (mut script, mut faults) = (SCRIPT.as_bytes(), Vec::new(alloc));
    let mut out = empty_sink(alloc, 1_000, 0, kind);
    epoch_pictures::run(alloc, &mut script, &mut out, &mut faults)
}

#[test]
fn a_picture_that_cannot_be_written_is_told_of_by_the_status(rt: HostRuntime) {
    let failed = status_of_picture(rt.alloc(), ErrorKind::BrokenPipe);
    want(&rt, "a stream that fails", failed, 3);
    let refused = status_of_picture(rt.alloc(), ErrorKind::OutOfMemory);
    want(&rt, "a stream without memory", refused, 4);
}

#[test]
fn a_usage_that_cannot_be_told_ends_a_program_as_a_refused_write(rt: HostRuntime) {
    let mut closed = empty_sink(rt.alloc(), 1, 0, ErrorKind::BrokenPipe);
    let ending = tell_usage("", &mut closed);
    want(&rt, "a closed stream", ending, Ending::StreamFailed);
    let mut full = empty_sink(rt.alloc(), 1, 0, ErrorKind::OutOfMemory);
    want(
        &rt,
        "no memory",
        tell_usage("", &mut full),
        Ending::NoMemory,
    );
}
