//! The laws as clauses of a function that does nothing.
ghost use Rattle.peer_calls.specs.Laws.{CallsAreServed, CodecsAreFaithful, TalksAreServed};

/// The calls that a client heard are those that its server made, with their replies.
pub fn calls_are_served()
    ensures calls { CallsAreServed }
    ensures talks { TalksAreServed }
{}

/// With a codec of events and replies, requests and readings are faithful.
pub fn codecs_are_faithful()
    ensures { CodecsAreFaithful }
{}
