//! The laws as clauses of calls that do nothing.

ghost use Rattle.adopted_dumps.specs.Adopted.{DumpIsFilled, DumpIsAdopted, DumpMayBeAdopted, PartsChangeNothing, FaultMayGain};

/// In each legal history a dump into which was laid what leads from its base to a tree has that tree. Adopted, it is the host's newest
/// backup, with that tree and the number, the times and the kind that it was adopted with; the host's other backups are shown as they
/// were, and other hosts are as they were. If a fault of the disk came in the place of the answer, so it is, or the disk keeps what it
/// kept.
pub fn a_laid_dump_is_adopted()
    ensures filled { DumpIsFilled }
    ensures adopted { DumpIsAdopted }
    ensures maybe { DumpMayBeAdopted }
{}

/// In each legal history of the other calls of a pull, whatever their replies, and of adoptions that were refused, the disk keeps what it
/// kept. Behind an adoption at which the disk failed it does, too, or the office halted between that and what its host would gain.
pub fn parts_change_nothing()
    ensures same { PartsChangeNothing }
    ensures fault { FaultMayGain }
{}
