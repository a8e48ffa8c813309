//! What follows from the definitions: functions that do nothing, whose contracts they keep.

ghost use Rattle.keep_rules.specs.Laws.{KeptSetExists, KeptSetsAgree, FlagsAreNamed, NewestStays, KeptStays, GapIsLeast, GapFails};

/// If the numbers rise, a set of filled backups satisfies the equation of those that the counts keep.
pub fn kept_set_exists()
    ensures { KeptSetExists }
{}

/// Two sets that satisfy the equation agree on each filled candidate of the group.
pub fn kept_sets_agree()
    ensures { KeptSetsAgree }
{}

/// If the numbers rise, the flags by recursion are those that the equation gives, and no others are.
pub fn flags_are_named()
    ensures { FlagsAreNamed }
{}

/// The newest backup isn't named.
pub fn newest_stays()
    ensures { NewestStays }
{}

/// A backup that is kept whatever the rules say isn't named.
pub fn kept_stays()
    ensures { KeptStays }
{}

/// The counts keep at a distance of `2^j * C - C/2`, for the least j with `c0 + .. + cj` above the number that are kept.
pub fn gap_is_least()
    ensures { GapIsLeast }
{}

/// They keep at no distance exactly if no sum is above it.
pub fn gap_fails()
    ensures { GapFails }
{}
