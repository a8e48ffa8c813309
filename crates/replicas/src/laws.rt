//! The laws as clauses of calls that do nothing.

ghost use Rattle.replicas.specs.Replicas.{PullBrings, DoneBringsAll};
ghost use Rattle.replicas.specs.Stops.{StoppedPullBrings};
ghost use Rattle.replicas.specs.Foreign.{ForeignIsRead};

/// However far a pull came, the host's backups at home are those before, and a beginning of the other server's from home's next number
/// on, each with the number, the times, the kind and the tree that it has there; what both servers have agrees, and no other host
/// changed. One that ended well brought all of them, and says how many.
pub fn a_pull_makes_a_replica()
    ensures brings { PullBrings }
    ensures all { DoneBringsAll }
{}

/// If the server at home is stopped within a call of the pull, what its disk may keep is so, too: the host's backups are those before and
/// a beginning of those to be brought, what both servers have agrees, and no other host changed.
pub fn a_stopped_pull_is_a_replica()
    ensures { StoppedPullBrings }
{}

/// A frame that the other server's history gives fits: a pull ends with `PeerForeign` only if what came in the place of an answer was none,
/// or if so many frames of one restore came that none has more.
pub fn no_frame_is_foreign()
    ensures { ForeignIsRead }
{}
