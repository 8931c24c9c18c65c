//! Why a line is no shape, or no step and no question: the first word that doesn't fit, and what it should be.
ghost use Rattle.std.specs.Prelude.{◌≡◌, ◌+◌, ℕ, None, Some, IfSome, MatchOption};
ghost use Rattle.epoch_script.specs.Words.{behind_words, first_word_of};

use crate::lines::MOST_STEPS;
use crate::words::{cut, read_guard, read_number, read_ptr, read_spot};
use std::fmt;

/// What the word in some place of a line should be.
#[derive(Clone, Copy, Debug, PartialEq, Eq)]
pub enum Expected {
    /// The first word of a first line.
    Shape,
    /// The number of a shape with this index.
    Size(usize),
    /// The first word of a further line.
    Step,
    Call,
    Position,
    /// How many steps, which a line may leave out.
    Steps,
    Guard,
    Pointer,
    Spot,
    Value,
    Bits,
    Tries,
    /// What the function of an update answers.
    Update,
    Tag,
    /// No word at all.
    End,
}

/// A word that doesn't fit. The words before it fit.
#[derive(Clone, Copy)]
pub struct Misfit<'l> {
    /// The number of the word, counted from 1.
    pub number: u64,
    /// The word, or `None` where the line ends before it.
    pub word: Option<&'l str>,
    pub expected: Expected,
}

/// What a number of a shape says, the least that it may be, and the greatest.
static SIZES: [(&str, u64, u64); 10] = [
    ("the number of participants", 1, 64),
    ("the number of cells", 0, 4096),
    ("the number of roots", 0, 4096),
    ("the number of fields of a cell", 0, 16),
    ("the number of places for bags", 1, 4096),
    ("the align, a power of two", 1, 256),
    ("the first epoch", 0, 9_223_372_036_854_775_807),
    ("the first turn", 0, 4_294_967_295),
    ("the number of jobs that a bag takes", 1, 64),
    ("the number of bags that a collection takes", 1, 64),
];

/// Which of the numbers has to be a power of two.
const ALIGN: usize = 5;

/// Which of the numbers is the first that a shape may leave out.
const BAG_JOBS: usize = 8;

/// The most letters of a word or a line that are told.
const MOST_LETTERS: usize = 80;

/// What is told of a pointer that is expected.
const POINTER: &str = "a pointer: null or SLOT.TURN, and +TAG behind it for a tag; \
    a slot is from 1 to 16777215, a turn up to 4294967295";

/// What is told of a spot that is expected.
const SPOT: &str = "a spot: rI for the root I, or SLOT.TURN/I for the field I of a cell; \
    a slot is from 1 to 16777215, a turn up to 4294967295";

/// A word that begins a line, a call, or the answer of an update, and what follows it.
type Form = (Expected, &'static str, &'static [Expected]);

static FORMS: [Form; 36] = [
    (
        Expected::Shape,
        "shape",
        &[
            Expected::Size(0),
            Expected::Size(1),
            Expected::Size(2),
            Expected::Size(3),
            Expected::Size(4),
            Expected::Size(5),
            Expected::Size(6),
            Expected::Size(7),
            Expected::Size(8),
            Expected::Size(9),
        ],
    ),
    (Expected::Step, "register", &[]),
    (
        Expected::Step,
        "begin",
        &[Expected::Position, Expected::Call],
    ),
    (Expected::Step, "go", &[Expected::Position, Expected::Steps]),
    (
        Expected::Step,
        "call",
        &[Expected::Position, Expected::Call],
    ),
    (Expected::Step, "end", &[]),
    (Expected::Step, "endgo", &[]),
    (Expected::Step, "endall", &[]),
    (Expected::Step, "epoch", &[]),
    (Expected::Step, "word", &[Expected::Position]),
    (Expected::Call, "pin", &[]),
    (Expected::Call, "unpin", &[Expected::Guard]),
    (Expected::Call, "repin", &[Expected::Guard]),
    (Expected::Call, "pause", &[Expected::Guard]),
    (Expected::Call, "resume", &[Expected::Guard]),
    (Expected::Call, "defer", &[Expected::Guard]),
    (
        Expected::Call,
        "defer-destroy",
        &[Expected::Guard, Expected::Pointer],
    ),
    (Expected::Call, "flush", &[Expected::Guard]),
    (Expected::Call, "release", &[]),
    (Expected::Call, "place", &[Expected::Value]),
    (
        Expected::Call,
        "read",
        &[Expected::Guard, Expected::Pointer],
    ),
    (Expected::Call, "leave", &[Expected::Pointer]),
    (
        Expected::Call,
        "write",
        &[Expected::Guard, Expected::Pointer, Expected::Value],
    ),
    (
        Expected::Call,
        "take",
        &[Expected::Guard, Expected::Pointer],
    ),
    (Expected::Call, "load", &[Expected::Guard, Expected::Spot]),
    (
        Expected::Call,
        "store",
        &[Expected::Spot, Expected::Pointer],
    ),
    (
        Expected::Call,
        "swap",
        &[Expected::Guard, Expected::Spot, Expected::Pointer],
    ),
    (
        Expected::Call,
        "cas",
        &[
            Expected::Guard,
            Expected::Spot,
            Expected::Pointer,
            Expected::Pointer,
        ],
    ),
    (
        Expected::Call,
        "cas-weak",
        &[
            Expected::Guard,
            Expected::Spot,
            Expected::Pointer,
            Expected::Pointer,
        ],
    ),
    (
        Expected::Call,
        "and",
        &[Expected::Guard, Expected::Spot, Expected::Bits],
    ),
    (
        Expected::Call,
        "or",
        &[Expected::Guard, Expected::Spot, Expected::Bits],
    ),
    (
        Expected::Call,
        "xor",
        &[Expected::Guard, Expected::Spot, Expected::Bits],
    ),
    (
        Expected::Call,
        "update",
        &[
            Expected::Guard,
            Expected::Spot,
            Expected::Tries,
            Expected::Update,
        ],
    ),
    (Expected::Update, "tag", &[Expected::Tag]),
    (Expected::Update, "to", &[Expected::Pointer]),
    (Expected::Update, "stop", &[]),
];

/// Returns the first word of a line that doesn't fit, where its first word should be of this kind. `None`: all fit.
pub fn misfit_of(line: &str, first: Expected) -> Option<Misfit<'_>>
    // The word is the one of this number, and a missing one isn't there.
    ensures word { IfSome result (λ misfit. (before : ℕ) × (misfit.number ≡ before + 1) × MatchOption misfit.word
        (behind_words before line.now ≡ None)
        (λ word. first_word_of (behind_words before line.now) ≡ Some word.now)) }
{
    let (mut rest, mut due) = (Some(line), Due { first, others: &[] });
    for before in 0..u64::MAX {
        let (number, expected) = (before + 1, due.first);
        let Some(text) = rest else {
            return expected.is_needed().then_some(Misfit {
                number,
                word: None,
                expected,
            });
        };
        let (word, others) = cut(text);
        let Some(next) = due.after(word) else {
            return Some(Misfit {
                number,
                word: Some(word),
                expected,
            });
        };
        rest = others;
        due = next;
    }
    None
}

/// What the next word should be, and what those behind it.
#[derive(Clone, Copy)]
struct Due {
    first: Expected,
    others: &'static [Expected],
}

impl Due {
    /// What is due after this word, or `None` where the word doesn't fit.
    fn after(self, word: &str) -> Option<Due> {
        let follows = self.first.follows(word)?;
        let others = if follows.is_empty() {
            self.others
        } else {
            follows
        };
        Some(match others.split_first() {
            Some((first, others)) => Due {
                first: *first,
                others,
            },
            None => Due {
                first: Expected::End,
                others: &[],
            },
        })
    }
}

impl Expected {
    /// Whether a line can't end before it.
    fn is_needed(self) -> bool {
        !matches!(
            self,
            Expected::End | Expected::Steps | Expected::Size(BAG_JOBS)
        )
    }

    /// What follows this word, or `None` where it isn't what is expected.
    fn follows(self, word: &str) -> Option<&'static [Expected]> {
        let fits = match self {
            Expected::Shape | Expected::Step | Expected::Call | Expected::Update => {
                return self.form(word);
            }
            Expected::Size(index) => is_size(index, word),
            Expected::Steps => is_within(word, 1, MOST_STEPS),
            Expected::Guard => read_guard(word).is_some(),
            Expected::Pointer => read_ptr(word).is_some(),
            Expected::Spot => read_spot(word).is_some(),
            Expected::End => false,
            _ => read_number(word).is_some(),
        };
        if fits { Some(&[]) } else { None }
    }

    /// What follows this word, where it is one of those that begin what is expected.
    fn form(self, word: &str) -> Option<&'static [Expected]> {
        for (kind, name, follows) in &FORMS {
            if *kind == self && *name == word {
                return Some(*follows);
            }
        }
        None
    }
}

/// Whether a word is a number within these bounds.
fn is_within(word: &str, least: u64, most: u64) -> bool {
    match read_number(word) {
        Some(number) => least <= number && number <= most,
        None => false,
    }
}

/// Whether a word may be the number of a shape with this index.
fn is_size(index: usize, word: &str) -> bool {
    let Some((_, least, most)) = SIZES.get(index) else {
        return false;
    };
    is_within(word, *least, *most) && (index != ALIGN || is_power_of_two(word))
}

fn is_power_of_two(word: &str) -> bool {
    match read_number(word) {
        Some(number) => number.count_ones() == 1,
        None => false,
    }
}

impl fmt::Display for Misfit<'_> {
    fn fmt<W: fmt::Write>(&self, f: &mut fmt::Formatter<W>) -> fmt::Result {
        let (number, expected) = (self.number, self.expected);
        match self.word {
            None => write!(f, "word {number} is missing: it should be {expected}"),
            Some("") => write!(
                f,
                "word {number} is empty, and should be {expected}; one space stands between words, and none at the ends"
            ),
            Some(word) => write!(f, "word {number}, {}, should be {expected}", Quoted(word)),
        }
    }
}

impl fmt::Display for Expected {
    fn fmt<W: fmt::Write>(&self, f: &mut fmt::Formatter<W>) -> fmt::Result {
        let text = match self {
            Expected::Shape => "shape: the first line gives the shape of the world",
            Expected::Size(index) => return write_size(f, *index),
            Expected::Step => "a step or a question",
            Expected::Call => "a call",
            Expected::Update => "what the update does",
            Expected::Position => "a participant's position: a number",
            Expected::Steps => "how many steps to take: a number from 1 to 100000",
            Expected::Guard => "a guard: its number, or - for an unprotected guard",
            Expected::Pointer => POINTER,
            Expected::Spot => SPOT,
            Expected::Value => "a value: a number",
            Expected::Bits => "the bits that change the tag: a number",
            Expected::Tries => "how many tries the update has: a number",
            Expected::Tag => "a tag: a number",
            Expected::End => "the end of the line",
        };
        f.write_str(text)?;
        write_names(f, *self)
    }
}

/// What a number of a shape says, and its bounds.
fn write_size<W: fmt::Write>(f: &mut fmt::Formatter<W>, index: usize) -> fmt::Result {
    match SIZES.get(index) {
        Some((says, least, most)) => write!(f, "{says}, from {least} to {most}"),
        None => Ok(()),
    }
}

/// The words that may begin what is expected, each behind a comma but the first.
fn write_names<W: fmt::Write>(f: &mut fmt::Formatter<W>, expected: Expected) -> fmt::Result {
    if expected == Expected::Shape {
        return Ok(());
    }
    let mut is_first = true;
    for (kind, name, _) in &FORMS {
        if *kind == expected {
            f.write_str(if is_first { ": " } else { ", " })?;
            f.write_str(*name)?;
            is_first = false;
        }
    }
    Ok(())
}

/// The beginning of a text in quotes, with escapes for what doesn't print.
#[derive(Clone, Copy)]
pub struct Quoted<'t>(pub &'t str);

impl fmt::Display for Quoted<'_> {
    fn fmt<W: fmt::Write>(&self, f: &mut fmt::Formatter<W>) -> fmt::Result {
        let beginning = beginning_of(self.0);
        write!(f, "{beginning:?}")?;
        if beginning.len() < self.0.len() {
            f.write_str("..")?;
        }
        Ok(())
    }
}

/// The first letters of a text, as many as are told.
fn beginning_of(text: &str) -> &str {
    match text.char_indices().nth(MOST_LETTERS) {
        Some((end, _)) => text.get(..end).unwrap_or(text),
        None => text,
    }
}
