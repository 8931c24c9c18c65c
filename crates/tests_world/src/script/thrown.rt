//! Lines that look thrown: a word of a line doesn't fit exactly if the line is no step, or no shape.
ghost use Rattle.std.specs.Prelude.{◌<◌};

use crate::wants::want;
use epoch_script::{Expected, misfit_of, read_command, read_shape};
use std::alloc::Global;
use std::process::Abort;

/// Numbers that look thrown, each from the one before.
#[derive(Drop)]
struct Dice(u64);

impl Dice {
    /// A number below `sides`.
    fn throw(&mut self, sides: u64) -> u64
        requires { 0 < sides }
        ensures { result < sides }
    {
        self.0 = self
            .0
            .wrapping_mul(6_364_136_223_846_793_005)
            .wrapping_add(1_442_695_040_888_963_407);
        (self.0 >> 33) % sides
    }
}

/// Lines of the grammar, of jobs and of cells.
const LINES: &[&str] = &[
    "register",
    "begin 0 pin",
    "begin 0 defer 1",
    "begin 1 flush 2",
    "go 0 3",
    "go 0 7",
    "go 1",
    "call 1 pin",
    "call 2 defer 0",
    "call 0 unpin 0",
    "call 1 unpin 0",
    "call 1 flush 0",
    "call 2 release",
    "call 0 pause 0",
    "call 0 resume 1",
    "call 1 repin 2",
    "call 0 defer -",
    "call 1 resume -",
    "word 2",
    "epoch",
    "end",
    "endgo",
    "endall",
    "go 0 40",
    "call 1 place 7",
    "call 1 place 2",
    "call 0 read 0 1.0",
    "call 0 read - 2.1",
    "call 2 leave 1.0",
    "call 0 write 0 2.0+1 9",
    "call 2 take 0 1.0",
    "call 1 defer-destroy 0 1.0",
    "call 0 defer-destroy - 2.2",
    "call 0 load 0 r0",
    "call 1 store 1.0/0 2.0+2",
    "call 0 swap 0 r0 null",
    "begin 1 cas 0 r0 1.0 null+2",
    "call 0 cas-weak 0 r0 null 1.0",
    "call 1 xor 0 r0 2",
    "begin 1 update 0 1.0/0 0 tag 3",
];

/// A line of the grammar, or a shape.
fn thrown_line(dice: &mut Dice, lines: &[&'static str]) -> &'static str {
    match dice.throw(80) {
        0..20 => "shape 2 2 1 1 2 4 0 0 3 2",
        20..40 => "shape 64 4096 16 9 4096 128 1 0",
        number => lines.get((number - 40) as usize).copied().unwrap_or(""),
    }
}

/// What may take the place of a byte of a script: what other lines are made of, and what no line has.
const STRAY: [u8; 19] = *b"0123456789 -\nx\r\xff.+/";

/// Puts up to two stray bytes in the place of others, among the first that there are so many of.
fn spoil(dice: &mut Dice, script: &mut [u8], first: u64) {
    for _ in 0..dice.throw(3) {
        let stray = STRAY[dice.throw(19) as usize];
        if let Some(byte) = script.get_mut(dice.throw(first.max(1)) as usize) {
            *byte = stray;
        }
    }
}

/// A word of the line doesn't fit exactly if the line isn't read.
fn want_agreement(rt: &impl Abort, line: &str) {
    let steps = misfit_of(line, Expected::Step).is_none();
    want(rt, line, steps, read_command(line).is_some());
    let shapes = misfit_of(line, Expected::Shape).is_none();
    want(rt, line, shapes, read_shape(line).is_some());
}

/// So it is of a line of which up to two bytes are spoiled.
fn want_agreement_on_a_thrown_line(rt: &impl Abort, alloc: Global, dice: &mut Dice) {
    let line = thrown_line(dice, LINES).to_string(alloc);
    let mut line = line.expect(rt, "memory for a line").into_bytes();
    let length = line.len() as u64;
    spoil(dice, &mut line, length);
    if let Ok(text) = str::from_utf8(&line) {
        want_agreement(rt, text.trim_end());
    }
}

#[test]
fn a_word_of_a_line_does_not_fit_exactly_if_the_line_is_not_read(rt: HostRuntime) {
    let mut dice = Dice(20_250_913);
    for _ in 0..100_000u32 {
        want_agreement_on_a_thrown_line(&rt, rt.alloc(), &mut dice);
    }
}
