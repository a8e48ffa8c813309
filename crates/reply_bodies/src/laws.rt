//! Laws of short bodies: functions that do nothing, whose contracts the definitions keep.
ghost use Rattle.reply_bodies.specs.Laws.{RefusalsAreJson, ShortRepliesAreJson};

/// A short answer is the text of its members as JSON.
pub fn short_replies_are_json()
    ensures { ShortRepliesAreJson }
{}

/// So is what says why an event was refused.
pub fn refusals_are_json()
    ensures { RefusalsAreJson }
{}
