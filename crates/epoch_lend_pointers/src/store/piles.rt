//! Places in which threads leave things for one another, as many as they like.
ghost use Rattle.std.specs.Prelude.{◌≡◌, ◌<◌, ◌≤◌, IfErr};
ghost use Rattle.std.specs.VecDeque.{deque_len, deque_capacity};

use counted_slot::{Counted, FREE, Fits, MARKED, PRESENT, TAKEN};
use std::alloc::{AllocError, Global};
use std::collections::VecDeque;
use std::sync::atomic::AtomicUsize;
use std::sync::atomic::Ordering::SeqCst;

/// How many places there are.
pub(crate) const PLACES: usize = 64;

// For how many things memory is taken, when a second one is put into a place.
const TOGETHER_AT_FIRST: usize = 4;

/// A thing that must not be dropped, and can be given up.
pub(crate) trait Abandon {
    /// Gives it up. This is for ends, and for a place that was changed by another thread than the one that has it,
    /// which no thread does.
    fn abandon(self);
}

/// The things in one place. A thing that is alone takes no memory.
#[derive(Drop)]
pub(crate) enum Pile<X> {
    One(X),
    /// The oldest is in front.
    Many(VecDeque<X>),
}

impl<X: Abandon> Pile<X> {
    /// Gives up what is on it.
    pub(crate) fn abandon(self) {
        match self {
            Pile::One(thing) => thing.abandon(),
            Pile::Many(things) => {
                let mut rest = things;
                while let Some(thing) = rest.pop_front() {
                    thing.abandon();
                }
                rest.destroy_empty();
            }
        }
    }
}

impl<X> Fits for Pile<X> {
    type Tag = ();

    ghost fits = { λ _ _. Unit {0} };
}

/// What is left of a pile, with room for the thing that was taken.
#[derive(Drop)]
struct Others<X> {
    many: VecDeque<X>,
    ghost room: { deque_len many < deque_capacity many },
}

/// What is left in a place out of which a thing was taken. The place is kept for it: it is `MARKED`, and nobody else
/// changes it until [`Piles::put_back`] or [`Piles::remove`] does.
#[derive(Drop)]
pub(crate) struct Rest<X> {
    position: usize,
    // `None`: the thing was alone.
    others: Option<Others<X>>,
}

/// A fixed number of places, each of which is empty or has things. Threads share it by `&`.
///
/// What is put and what is taken goes round the places, so what was put first is taken first, and both find a place
/// in a few steps, however many things there are.
#[derive(Drop)]
pub(crate) struct Piles<X> {
    places: Vec<Counted<Option<Pile<X>>>>,
    // How many things were put, and how many have left since.
    put: AtomicUsize,
    left: AtomicUsize,
    alloc: Global,
}

// Gives up what was in a place where nothing should have been.
fn give_up<X: Abandon>(pile: Option<Pile<X>>) {
    match pile {
        Some(pile) => pile.abandon(),
        None => {}
    }
}

// Takes what is in a place, which is kept for the caller, by one exchange of its word and one store. `None`: nothing
// was there, or another thread has the place.
#[inline(always)]
fn take_from<X>(place: &Counted<Option<Pile<X>>>) -> Option<Pile<X>> {
    if place.load() != PRESENT {
        return None;
    }
    let (found, claim) = place.turn(PRESENT, TAKEN);
    if found != PRESENT {
        claim.done();
        return None;
    }
    claim.put(None, MARKED)
}

// Gives a place back that is kept for the caller, with this in it.
fn give_back<X: Abandon>(place: &Counted<Option<Pile<X>>>, pile: Option<Pile<X>>) {
    let word = if pile.is_some() { PRESENT } else { FREE };
    let (found, claim) = place.turn(MARKED, TAKEN);
    if found == MARKED {
        give_up(claim.put(pile, word));
    } else {
        claim.done();
        give_up(pile);
    }
}

// Puts a thing into a place that is empty. It is handed back if the place was seen otherwise.
#[inline(always)]
fn put_alone<X: Abandon>(place: &Counted<Option<Pile<X>>>, thing: X) -> Result<(), X>
    ensures { IfErr result (λ back. back ≡ thing) }
{
    let (found, claim) = place.turn(FREE, TAKEN);
    if found != FREE {
        claim.done();
        return Err(thing);
    }
    give_up(claim.put(Some(Pile::One(thing)), PRESENT));
    Ok(())
}

// What is left in a place when a thing was taken out of it for good.
fn pile_of<X>(others: Option<Others<X>>) -> Option<Pile<X>> {
    let Others { many } = others?;
    if many.is_empty() {
        many.destroy_empty();
        return None;
    }
    Some(Pile::Many(many))
}

// Puts a thing on a pile. It is handed back if there is no memory for it.
fn pile_up<X>(alloc: Global, pile: Pile<X>, thing: X) -> (Pile<X>, Result<(), X>)
    ensures { IfErr result.1 (λ back. back ≡ thing) }
{
    match pile {
        Pile::One(first) => match VecDeque::with_capacity(alloc, TOGETHER_AT_FIRST) {
            Ok(empty) => {
                let mut many = empty;
                many.push_back_reserved(first);
                many.push_back_reserved(thing);
                (Pile::Many(many), Ok(()))
            }
            Err(_) => (Pile::One(first), Err(thing)),
        },
        Pile::Many(others) => {
            let mut many = others;
            match many.push_back(thing) {
                Ok(()) => (Pile::Many(many), Ok(())),
                Err(failed) => (Pile::Many(many), Err(failed.value)),
            }
        }
    }
}

impl<X> Piles<X> {
    /// Makes the places, which are empty. It fails only if memory is refused.
    pub(crate) fn new(alloc: Global) -> Result<Piles<X>, AllocError> {
        let mut places = Vec::with_capacity(alloc, PLACES)?;
        while places.len() < PLACES {
            places.push_reserved(Counted::new(None, &()));
        }
        Ok(Piles {
            places,
            put: AtomicUsize::new(0),
            left: AtomicUsize::new(0),
            alloc,
        })
    }

    /// Returns how many things there are, those too that a thread has taken out for a while. Another thread may change
    /// this at once.
    #[inline(always)]
    pub(crate) fn len(&self) -> usize {
        let left = self.left.load(SeqCst);
        self.put.load(SeqCst).wrapping_sub(left)
    }

    /// Returns how many things have left for good. The oldest of those that haven't is in the place with this number,
    /// as of [`Piles::take_out`], unless other threads are about to take it.
    pub(crate) fn gone(&self) -> usize {
        self.left.load(SeqCst)
    }

    /// Ends the places, and returns them, each with what is in it.
    pub(crate) fn into_places(self) -> Vec<Counted<Option<Pile<X>>>> {
        let Piles {
            places,
            put: _,
            left: _,
            alloc: _,
        } = self;
        places
    }
}

impl<X: Abandon> Piles<X> {
    /// Puts a thing behind the others. It is handed back if each place was seen in another thread's hands, or had
    /// things already and memory for one more was refused.
    pub(crate) fn put(&self, thing: X) -> Result<(), X>
        ensures { IfErr result (λ back. back ≡ thing) }
    {
        let mut kept = thing;
        let first = self.put.load(SeqCst);
        for step in 0..PLACES {
            match self.put_at(first.wrapping_add(step) % PLACES, kept) {
                Ok(()) => return Ok(()),
                Err(back) => kept = back,
            }
        }
        Err(kept)
    }

    // Puts a thing into this place. It is handed back if another thread has the place, or memory was refused.
    fn put_at(&self, position: usize, thing: X) -> Result<(), X>
        ensures { IfErr result (λ back. back ≡ thing) }
    {
        let Some(place) = self.places.get(position) else {
            return Err(thing);
        };
        if place.load() == FREE {
            put_alone(place, thing)?;
            self.put.fetch_add(1, SeqCst);
            return Ok(());
        }
        let Some(pile) = take_from(place) else {
            return Err(thing);
        };
        let (pile, answer) = pile_up(self.alloc, pile, thing);
        give_back(place, Some(pile));
        if answer.is_ok() {
            self.put.fetch_add(1, SeqCst);
        }
        answer
    }

    /// Takes the oldest thing out of a place, whose number is taken modulo [`PLACES`]. `None`: the place is empty, or
    /// another thread has it.
    ///
    /// The rest must be given to [`Piles::put_back`] or [`Piles::remove`].
    pub(crate) fn take_out(&self, number: usize) -> Option<(X, Rest<X>)> {
        let position = number % PLACES;
        let place = self.places.get(position)?;
        match take_from(place)? {
            Pile::One(thing) => {
                let rest = Rest {
                    position,
                    others: None,
                };
                Some((thing, rest))
            }
            Pile::Many(others) => {
                let mut many = others;
                let Some(thing) = many.pop_front() else {
                    many.destroy_empty();
                    give_back(place, None);
                    return None;
                };
                let rest = Rest {
                    position,
                    others: Some(Others { many }),
                };
                Some((thing, rest))
            }
        }
    }

    /// Puts a thing back into the place out of which one was taken, in front of the others.
    pub(crate) fn put_back(&self, rest: Rest<X>, thing: X) {
        let Rest { position, others } = rest;
        let pile = match others {
            None => Pile::One(thing),
            Some(Others { many }) => {
                let mut many = many;
                many.push_front_reserved(thing);
                Pile::Many(many)
            }
        };
        match self.places.get(position) {
            Some(place) => give_back(place, Some(pile)),
            None => pile.abandon(),
        }
    }

    /// Gives the place back out of which a thing was taken for good.
    pub(crate) fn remove(&self, rest: Rest<X>) {
        let Rest { position, others } = rest;
        self.left.fetch_add(1, SeqCst);
        let pile = pile_of(others);
        match self.places.get(position) {
            Some(place) => give_back(place, pile),
            None => give_up(pile),
        }
    }

    /// Takes a thing for good, the oldest first. `None`: none was seen.
    pub(crate) fn take(&self) -> Option<X> {
        if self.len() == 0 {
            return None;
        }
        let first = self.gone();
        for step in 0..PLACES {
            if let Some((thing, rest)) = self.take_out(first.wrapping_add(step)) {
                self.remove(rest);
                return Some(thing);
            }
        }
        None
    }
}
