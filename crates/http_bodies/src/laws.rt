//! Laws of bodies: functions that do nothing, whose contracts the definitions keep.
ghost use Rattle.http_bodies.specs.Laws.{BodiesAreOne, StopsAreOne, WholeBodiesDoNotStop};

/// An input has one reading as a body: at most one whole body stands at its front, none stops that is whole, and what stops stops in one place.
pub fn an_input_has_one_reading()
    ensures whole { BodiesAreOne }
    ensures whole_or_stops { WholeBodiesDoNotStop }
    ensures stops { StopsAreOne }
{}
