//! The event Lookup.

ghost use Rattle.std.specs.Prelude.{◌≡◌, false};
ghost use Rattle.std.specs.Option.{option_copied};
ghost use Rattle.office_model.specs.declared.event.Event.TheVariants.{Lookup};
ghost use Rattle.store_parts.specs.Runs.{Runs};
ghost use Rattle.store_reads.specs.Shown.{node_told, Answers};
ghost use Rattle.store_reads.specs.Told.{ReadsTree, HasDamagedTable, IsReadReply, SaysNode};

use crate::load::load_backup;
use crate::nodes::node_of;
use attr_records::{HostName, PathName};
use attr_tables::Record;
use disk_trait::Disk;
use office_model::{Answer, BrokenRule, Node, Refusal};
use pool_name::Namer;
use std::alloc::Global;
use store_parts::StoreParts;

/// What is said of a path, without the bytes of a file.
fn node_at(alloc: Global, found: Option<&Record>) -> Result<Node, Refusal>
    ensures { Answers (node_told (option_copied found.entry)) result }
{
    let stored = match found {
        Some(stored) => stored,
        None => return Err(Refusal::Broken(BrokenRule::NoPath)),
    };
    match node_of(alloc, stored) {
        Ok(Some(node)) => Ok(node),
        Ok(None) => Err(Refusal::Broken(BrokenRule::NoPath)),
        Err(_) => Err(Refusal::Memory),
    }
}

/// What is at a path of a backup, without the bytes of a file. It changes nothing but which view is kept, whether it
/// answers or refuses: a host, a backup or a path that isn't there, a table that is damaged, a fault of the disk or want
/// of memory.
pub fn lookup<D: Disk, N: Namer>(
    parts: &mut StoreParts<D, N>,
    alloc: Global,
    host: &HostName,
    number: u32,
    path: &PathName,
) -> Result<Answer, Refusal>
    requires ready { parts.old.halted ≡ false }
    requires journal_ready { parts.old.journal.halted ≡ false }
    ensures runs { Runs parts.old (Lookup host.now number path.now) result parts.new }
    ensures read { IsReadReply (ReadsTree parts.old host.now number) (HasDamagedTable parts.old host.now number)
        (SaysNode path.now) result }
{
    match load_backup(parts, alloc, host, number) {
        Ok(()) => {}
        Err(refusal) => return Err(refusal),
    }
    match node_at(alloc, parts.views.find(path)) {
        Ok(node) => Ok(Answer::Entry(node)),
        Err(refusal) => Err(refusal),
    }
}
