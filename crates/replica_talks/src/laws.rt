//! The laws as clauses of calls that do nothing.

ghost use Rattle.replica_talks.specs.TalkLaws.{DoneTalksBringAll, ForeignIsCut, RefusalsAreSaid, TalksAreHeard, TalksMakeReplicas};

/// What a pull heard over its link are calls of the other server's history, in order and with their replies, wherever the connection was
/// cut. A pull that ends by a refusal of that server was refused there, with a refusal of that status, or there was no memory. An answer
/// of it is foreign only if what came ended before the response, or within it.
pub fn talks_are_heard()
    ensures heard { TalksAreHeard }
    ensures refusals { RefusalsAreSaid }
    ensures foreign { ForeignIsCut }
{}

/// So what a pull leaves at home is as the laws of a replica have it, by the very bytes that it wrote and read: however far it came and
/// wherever the connection was cut, the host's backups are those before and a beginning of those that were to be brought, and no other
/// host changed. One that ended well brought all of them, and says how many.
pub fn talks_make_replicas()
    ensures brings { TalksMakeReplicas }
    ensures all { DoneTalksBringAll }
{}
