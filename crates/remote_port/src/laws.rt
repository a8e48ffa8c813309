//! The laws as clauses of functions that do nothing.

ghost use Rattle.remote_port.specs.Laws.{HeardCallsAreAnswered, HeardCallsAreServed};

use crate::codec::Codec;

/// What a port heard over a connection to a server is what that server said and did.
pub fn heard_calls_are_served<C: Codec>()
    ensures answered { HeardCallsAreAnswered C.may C.request_of C.refusal_of C.says C.in_range C.at }
    ensures served { HeardCallsAreServed C.may C.request_of C.refusal_of C.says C.in_range C.at }
{}
