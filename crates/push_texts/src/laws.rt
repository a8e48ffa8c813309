//! The laws as clauses of calls that do nothing.
ghost use Rattle.push_texts.specs.Laws.{PushesArePlain, PushesReadBack};

/// A server reads the event that a client's request asks for.
pub fn pushes_read_back()
    ensures { PushesReadBack }
{}

/// The texts of a request may stand in a head, and are short.
pub fn pushes_are_plain()
    ensures { PushesArePlain }
{}
