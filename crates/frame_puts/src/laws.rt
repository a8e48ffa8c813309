//! What holds of many frames, one after the other.

ghost use Rattle.frame_puts.specs.Runs.{LaysTree, FitsTree, LaysMore, FitsNext};

/// The frames that lead from a base to a tree call just the removals of what was lost, and then a put of each row that the base hasn't
/// so; and none of them is foreign.
pub fn frames_of_a_tree_are_laid()
    ensures lays { LaysTree }
    ensures fits { FitsTree }
{}

/// One more frame is laid behind those that were, and behind the first frames of a tree the next one fits.
pub fn frames_are_laid_in_turn()
    ensures more { LaysMore }
    ensures next { FitsNext }
{}
