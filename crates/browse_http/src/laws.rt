//! Laws of talks: functions that do nothing, whose contracts the definitions keep.

ghost use Rattle.browse_http.specs.Laws.{RequestsAreOne};

/// An input has one reading as requests: its bytes fix the head and the body of the next one, and what follows it.
pub fn requests_are_one()
    ensures { RequestsAreOne }
{}
