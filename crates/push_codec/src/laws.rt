//! The laws as clauses of a call that does nothing.

ghost use Rattle.push_codec.specs.Laws.{PushesAreCoded, RequestsAreRead, PushesAreRequests, RepliesAreSaid};

/// The events of a push and their replies have a codec: a server reads each request as its event, and what is read of the response to a
/// reply is that reply.
pub fn pushes_are_coded()
    ensures codec { PushesAreCoded }
    ensures read { RequestsAreRead }
    ensures requests { PushesAreRequests }
    ensures said { RepliesAreSaid }
{}
