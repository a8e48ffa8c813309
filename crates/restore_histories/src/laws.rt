//! What follows from the definitions of the model.

ghost use Rattle.restore_histories.specs.Listed.{ListedStays};
ghost use Rattle.restore_histories.specs.Given.{RestoreGives, OpenedIsListed, RunBegins};

/// A backup that a host had has its tree, its times and its kind in every state behind, or is gone: no other one ever has its number.
pub fn a_listed_backup_stays()
    ensures { ListedStays }
{}

/// What a restore gives is a beginning of the frames that lead to its backup's tree from that of its base, as both were when it was
/// opened, or all of them and the last one again.
pub fn a_restore_gives_its_backup()
    ensures { RestoreGives }
{}

/// So it is of the trees that both had when the host's backups were listed before, even if the office was reopened in between.
pub fn what_is_opened_is_what_was_listed()
    ensures { OpenedIsListed }
{}

/// Read up to its first End, a restore has given all that leads to the tree, and read less, a beginning of it.
pub fn frames_up_to_the_end_are_all()
    ensures { RunBegins }
{}
