//! A queue through which some threads hand jobs to others. Each job is moved: into the queue by the thread that sends
//! it, and out by the one thread that receives it.
use epoch_lend_pointers::{Fault, PostSet, Refused, ScopedSession, Writer, pinned};
use epoch_lists::{LendingQueue, OwnedNode};

/// A job on its way.
pub type JobNode = OwnedNode<String>;

/// How often a call tries. With no other thread at work, a push needs at most two tries, and a pop needs one.
const TRIES: u32 = 1_000;

/// Puts the job behind all others, under a pin of its own.
///
/// An error leaves the queue as it is, and hands the job back. The caller can call again.
pub fn send<'s, J: PostSet>(
    queue: &LendingQueue<'_, 's, J, JobNode>,
    session: &mut ScopedSession<'_, J>,
    writer: &mut Writer<'_, 's, J, JobNode>,
    job: String,
) -> Result<(), Refused<String>> {
    pinned(session, |guard| queue.push_owned(writer, guard, job, TRIES))
}

/// Takes the job that was sent first, under a pin of its own. `None`: no job is there.
///
/// An error leaves the job in the queue, and the caller can call again.
pub fn receive<'s, J: PostSet>(
    queue: &LendingQueue<'_, 's, J, JobNode>,
    session: &mut ScopedSession<'_, J>,
    writer: &mut Writer<'_, 's, J, JobNode>,
) -> Result<Option<String>, Fault> {
    pinned(session, |guard| queue.pop_owned(writer, guard, TRIES))
}
