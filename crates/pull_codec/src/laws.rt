//! The laws as clauses of functions that do nothing.
ghost use Rattle.pull_codec.specs.CallLaws.{CallsAreHeard, RunsAreHeard, RunsAreRead, RunsAreServed};
ghost use Rattle.pull_codec.specs.Laws.{PullsAreCoded, AnswersAreSaid, PullsAreRequests, AnsweredPullsAreServed, PullsAreServed};

/// The events of a pull and their replies have a codec: what is read of the response to a reply is that reply, and each answer is read.
pub fn pulls_are_coded()
    ensures codec { PullsAreCoded }
    ensures said { AnswersAreSaid }
    ensures requests { PullsAreRequests }
{}

/// The calls that a pull heard over a connection are those that the server made, with their replies.
pub fn pulls_are_served()
    ensures answered { AnsweredPullsAreServed }
    ensures talks { PullsAreServed }
{}

/// A call of a pull that gave a value was heard; the calls of one wire that were heard are a list, with their requests and responses; and
/// those are the server's.
pub fn calls_are_heard()
    ensures one { CallsAreHeard }
    ensures several { RunsAreHeard }
    ensures read { RunsAreRead }
    ensures served { RunsAreServed }
{}
