//! Laws of both ends: functions that do nothing, whose contracts the definitions keep.
ghost use Rattle.peer_talk.specs.Laws.{ResponsesAreReadable, ServerTalksAreAsked, ServerTalksAreMirrored, ShortRequestsCallWhole};

/// Each request that a server read is its client's at that place; and if no body is longer than a piece, then a request that wasn't
/// read whole called nothing.
pub fn talks_are_asked()
    ensures asked { ServerTalksAreAsked }
    ensures whole { ShortRequestsCallWhole }
{}

/// Each response that a client reads is the one to its request at that place; behind the last a server may say that there is no memory.
pub fn talks_are_mirrored()
    ensures { ServerTalksAreMirrored }
{}

/// Each response of this server, but to HEAD, is read as it is said, if no body has 2^64 bytes and no file comes shorter than it is.
pub fn responses_are_readable()
    ensures { ResponsesAreReadable }
{}
