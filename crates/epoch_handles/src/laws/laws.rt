//! What holds of whatever threads perform: laws of the definitions.
ghost use Rattle.epoch_handles.specs.Told.{RepliesAreFound, ExpiriesAreSeen, AnswersAreFound};
ghost use Rattle.epoch_handles.specs.ThreadGrace.{KeepsGraceOnThreads};
ghost use Rattle.epoch_handles.specs.JobsKept.{KeepsJobsInCalls, LosesNoJob, LeavesTheRest};
ghost use Rattle.epoch_handles.specs.ThreadsMet.{IsCalledOnThreads, IsLeftOnThreads};

use epoch_tables::shared_places::{closed_places_hold_the_rest, no_bag_is_lost};
use epoch_tables::table::pinned_seats_hold_bags_back;

/// If a thread performs what its machine asks for, the replies on the participants' table are exactly the words that
/// its seat's steps found, in order. The greatest epoch that the seat has read or stored never falls.
pub fn replies_are_found<J>()
    // The replies on the participants' table are exactly the words that the handle's steps found, in order, and the
    // greatest epoch that it has read or stored never falls.
    ensures { RepliesAreFound J }
{}

/// If a thread performs what its machine asks for, from the beginning of an action on, bags are taken only for an epoch
/// that its seat has read or stored. So a bag whose jobs are called has a seal at least two below such an epoch.
pub fn expiries_are_seen<J>()
    // Bags are taken only for an epoch that the handle has read or stored. So a bag whose jobs it called has a seal at
    // least two below such an epoch.
    ensures { ExpiriesAreSeen J }
{}

/// If a thread performs what its machine asks for, each answer of a put or of a collection is the one that the word
/// found at its place stands for, in order. These are exactly the words that its seat's steps found there.
pub fn answers_are_found<J>()
    // The answers of puts and of collections are those that the words at the places stand for, in order. These words
    // are exactly those that the handle's steps found there.
    ensures { AnswersAreFound J }
{}

/// No job is called too early. If a thread performs what its machine asks for, from the beginning of an action up to
/// any point, the jobs that it is given to call are those of the bags that it got out of places. If a participant was
/// pinned, and had read the epoch again, when the epoch was the seal of one of these bags, that pin is over.
///
/// The clauses `does` and `called` of a handle's calls say that each call is such a list of asks, and that each job
/// that was given was called. A bag's seal is the epoch that was loaded after its last job was deferred.
pub fn calls_come_after_pins<J>()
    // At every point of a call, the jobs given to be called are those of the bags that it got out of places, in their
    // order. If a participant was pinned, and had read the epoch again, when the epoch was the seal of one of these
    // bags, that pin is over.
    ensures { KeepsGraceOnThreads J }
{
    pinned_seats_hold_bags_back();
}

/// If a thread performs what its machine asks for, from the beginning of an action up to any point, it loses no job.
/// Give each job any weight: then the jobs that it had, those that it was given to keep and those that it has won in
/// places weigh as much together as the jobs that it has now, those that it was given to call and those that it has
/// left in places.
///
/// It has the jobs in its bag, those that are left of a bag that it calls, and those of a bag in hand at a place.
pub fn calls_keep_jobs<J>()
    // At every point of a call, the call has lost no job. The jobs that the participant had, was given to keep and has
    // won in places have the same weight as those that it has, was given to call and has left in places. There, the
    // jobs that a participant has are those in its bag, those left of a bag that it calls, and those of a bag in hand
    // at a place.
    ensures { KeepsJobsInCalls J }
{}

/// No job is lost on threads, and none is given to be called twice. Give each job any weight: then at any moment,
/// wherever the participants have come to in their calls, all jobs that were accepted weigh as much together as those
/// that participants have, those that were given to be called, and those of the bags that stand in places.
///
/// A job is accepted when the machine asks for it to be kept. The law is about all that participants have done since
/// they registered, before the collector ends.
pub fn no_job_is_lost<J>()
    // No job is lost on threads, and none is given out twice to be called. At any moment before the collector ends, the
    // accepted jobs have the same weight as those that participants have, those that were given to be called, and those
    // in places.
    ensures { LosesNoJob J }
{
    no_bag_is_lost::<J>();
}

/// An end calls what is left. Give each job any weight. If all participants have left when the places are closed, all
/// jobs that were accepted weigh as much together as those that were given to be called and those that are left in the
/// closed places.
///
/// The clause `called` of an end says that it calls each of these. So after it each accepted job was called, exactly as
/// often as it was accepted.
pub fn an_end_calls_the_rest<J>()
    // An end calls the jobs that are left. If all participants have left when the places are closed, the accepted jobs
    // have the same weight as those that were given to be called and those that the closed places had.
    ensures { LeavesTheRest J }
{
    no_job_is_lost::<J>();
    closed_places_hold_the_rest::<J>();
}

/// Some two participants meet all premises of [`calls_come_after_pins`] and [`no_job_is_lost`], with a job that they
/// keep and call, whatever job this is.
///
/// One pins and unpins. The other pins, defers the job, and flushes it while the first one is pinned. It calls the job
/// once the first one has unpinned.
pub fn some_threads_call_a_job<J>()
    // The premises of the laws on threads can be met: two participants that share one place meet them. One of them has
    // pinned and unpinned. The other one has deferred a job and put it into the place while the first was pinned, and
    // has called it since the first has unpinned.
    ensures { (job : J) → IsCalledOnThreads job }
{}

/// Some two participants meet all premises of [`an_end_calls_the_rest`], with a job that is left in a closed place,
/// whatever job this is.
pub fn some_threads_leave_a_job<J>()
    // The premises of the law on an end can be met: two participants that have left meet them. One of them has put a
    // job into the place when it was released, and the place is closed with it.
    ensures { (job : J) → IsLeftOnThreads job }
{}
