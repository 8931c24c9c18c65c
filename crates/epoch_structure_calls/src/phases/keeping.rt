//! What keeps the removals that a structure's calls defer.
ghost use Rattle.epoch_structure_calls.specs.Paths.{Keeping};

use epoch_cells::Name;
use epoch_laws::Reply;

/// How participants `H` keep removals, in calls under guards `G`. No value of it is made.
///
/// A handle whose guards lend keeps them among what it has gathered.
pub trait Keeps<H, G> {
    /// What making room, and keeping a removal, come to.
    ghost keeping: { Keeping H };

    /// The guard is one that the participant has out, so that these calls may be made.
    ghost serves: { H → G → Type 0 };

    /// What these calls leave as it is.
    ghost stays: { H → H → Type 0 };

    // No call leaves everything, several calls leave what each of them does, and the guard stays one of the
    // participant's.
    ghost stays_itself: { (h : H) → stays h h };

    ghost stays_on: { (h mid last : H) → stays h mid → stays mid last → stays h last };

    ghost serves_on: { (h last : H) (guard : G) → serves h guard → stays h last → serves last guard };

    /// Makes room for one removal.
    fn make_room(handle: &mut H, guard: &G) -> Reply
        requires { serves handle.old guard.now }
        ensures stays { stays handle.old handle.new }
        ensures made { keeping.room handle.old result handle.new };

    /// Keeps the removal of what has this name, which is out of reach, until no guard protects it any more.
    fn keep(handle: &mut H, name: Name, guard: &G) -> Reply
        requires { serves handle.old guard.now }
        ensures stays { stays handle.old handle.new }
        ensures kept { keeping.removal handle.old name result handle.new };
}
