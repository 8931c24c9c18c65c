//! What a participant gets done while no other one disturbs it: how many rounds empty a store, how few bags one call
//! takes, that a put finds a free place, and why a bag waits two epochs and not one. These are laws of every run of a
//! world, whatever its store of bags.
ghost use Rattle.std.specs.Prelude.{◌≡◌, ℕ, suc, ◌+◌, ◌^◌, ◌<◌, ◌≤◌, ◌++◌, List, length};
ghost use Rattle.epoch_laws.specs.declared.step.Entry.{Entry};
ghost use Rattle.epoch_cells.specs.declared.fault.Fault.TheVariants.{BagsFull};
ghost use Rattle.epoch_laws.specs.declared.step.Call.{Call};
ghost use Rattle.epoch_laws.specs.declared.step.Reply.{Reply};
ghost use Rattle.epoch_laws.specs.declared.step.Reply.TheVariants.{Refused};
ghost use Rattle.epoch_laws.specs.Run.{State, HasFreePlace, IsFresh, Runs};
ghost use Rattle.epoch_laws.specs.Collected.{CollectsFew};
ghost use Rattle.epoch_laws.specs.Sharp.{pair_sizes, EndsIn, EndsCall, TakesSharpList, IsSharp};
ghost use Rattle.epoch_laws.specs.Rounds.{IsQuiet, IsFirstRound, AreRounds, CallsAll, RoundsCallAll};
ghost use Rattle.epoch_laws.specs.Rounds.{collections};

/// Rounds of one participant, while no other one is pinned or at work, call every job that is in the store when the
/// flush of the first round has put its own bag. It takes that round, one more, and one for each collection that the
/// bags need.
pub fn quiet_rounds_call_all()
    // A participant makes rounds, each a pin, a flush and an unpin. Let b bags be in the store when the first flush has
    // put its own, and let a collection take c bags. Then `2 + ceil(b / c)` rounds have called every job of these bags.
    ensures found { (fresh s new : State) (earlier log : List Entry) → IsFresh fresh → Runs fresh earlier s
        → Runs s log new → RoundsCallAll s log new }

    // Also said of any state in which the first round's own bag is in the store.
    ensures from_put { (fresh s put new : State) (earlier before after others : List Entry) (p : ℕ)
        → IsFresh fresh → Runs fresh earlier s → IsQuiet p s → s.epoch + 4 ≤ 2 ^ 63
        → Runs s before put → IsFirstRound p before put after
        → AreRounds p (suc (collections (length put.queued) put.sizes.collect_bags)) others
        → Runs put (after ++ others) new → CallsAll put.queued (after ++ others) new }
{}

/// Whatever other participants do meanwhile, one call takes at most as many bags as one collection may take, and calls
/// at most the jobs of that many full bags. It collects at most once.
pub fn every_call_collects_few()
    // Whatever other participants do meanwhile, one call takes at most as many bags as a collection may take, and calls
    // at most the jobs of that many full bags.
    ensures { (fresh new : State) (log : List Entry) → IsFresh fresh → (run : Runs fresh log new)
        → CollectsFew fresh log new run }
{}

/// A call isn't refused for lack of a place if some place had no bag when it began, no other participant was putting or
/// taking a bag then, and no other participant takes a step before it ends.
pub fn lone_calls_find_a_place()
    // A call isn't refused for lack of a place if some place had no bag when it began, no other participant was putting
    // or taking a bag then, and no other participant takes a step before it ends.
    ensures { (fresh s new : State) (earlier : List Entry) (p : ℕ) (c : Call) (replies : List Reply) → IsFresh fresh
        → Runs fresh earlier s → HasFreePlace p s → EndsCall p c s replies new → ¬ (EndsIn (Refused BagsFull) replies) }
{}

/// A bag waits no longer than it must: the sharp list leads to a state in which a bag is one epoch old for a
/// collection, and has a job that a participant other than the one that deferred it still blocks.
pub fn sharp_list_is_sharp()
    // A bag has to wait two epochs and not one. After the sharp list, in a world with a place, a collection has run to
    // the end of its call and left a bag whose seal is one below the collection's epoch. A participant that did not
    // defer the bag's job has stayed pinned since the deferral.
    ensures { (fresh new : State) (log : List Entry) → IsFresh fresh → fresh.sizes ≡ pair_sizes → fresh.epoch ≡ 0
        → 0 < length fresh.places → TakesSharpList fresh log new → IsSharp fresh log new }
{}
