//! The laws as clauses of calls that do nothing.
ghost use Rattle.event_texts.specs.Laws.{RequestsReadBack, RequestsArePlain};

/// A server reads the event that a client's request asks for.
pub fn requests_read_back()
    ensures { RequestsReadBack }
{}

/// The texts of a request may stand in a head, and are short.
pub fn requests_are_plain()
    ensures { RequestsArePlain }
{}
