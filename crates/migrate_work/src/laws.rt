//! What follows from the definitions.

ghost use Rattle.migrate_work.specs.Keeping.{OfficeKept, NoneLeft};

/// A migration changes no office, however it ended, and one that was done leaves no host that may have tables of the first layout.
pub fn a_migration_changes_no_office()
    ensures kept { OfficeKept }
    ensures none_left { NoneLeft }
{}
