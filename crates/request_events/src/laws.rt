//! What is looked at of a body, in plain words: functions that do nothing, whose contracts the definitions keep.
ghost use Rattle.request_events.specs.Laws.{LooksAtEnough, WholeFits};

/// The event needs no byte of a body behind those that are looked at.
pub fn looks_at_enough()
    ensures { LooksAtEnough }
{}

/// A file that goes whole is no longer than a piece.
pub fn whole_fits()
    ensures { WholeFits }
{}
