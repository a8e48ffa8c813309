//! The law as a clause of a call that does nothing.

ghost use Rattle.push_replies.specs.Laws.{RepliesReadBack};

/// What is read of the response to a reply is that reply.
pub fn replies_read_back()
    ensures { RepliesReadBack }
{}
