//! The event List.

ghost use Rattle.std.specs.Prelude.{◌≡◌, ◌+◌, ◌++◌, [], Some, true, false, IfOk, OnOk, length, drop};
ghost use Rattle.std.specs.Option.{option_copied};
ghost use Rattle.attr_records.specs.Paths.{parent};
ghost use Rattle.backup_views.specs.Kept.{rows_of};
ghost use Rattle.merge_view.specs.Runs.{is_child};
ghost use Rattle.office_model.specs.declared.event.Event.TheVariants.{List};
ghost use Rattle.store_parts.specs.Runs.{Runs};
ghost use Rattle.store_reads.specs.Shown.{directory_told, list_told, entry_told, entries_told, pushed};
ghost use Rattle.store_reads.specs.Told.{ReadsTree, HasDamagedTable, IsReadReply, ListsRows};

use crate::load::load_backup;
use crate::nodes::node_of;
use attr_records::{HostName, PathName};
use attr_tables::{Record, Row};
use backup_views::Views;
use disk_trait::Disk;
use office_model::{Answer, BrokenRule, EntryList, NamedNode, Refusal};
use pool_name::Namer;
use std::alloc::{AllocError, Global};
use store_parts::StoreParts;

/// The first rule that listing what is at a path breaks.
fn directory_rule(found: Option<&Record>) -> Option<BrokenRule>
    ensures { result ≡ directory_told (option_copied found.entry) }
{
    match found {
        Some(Record::Dir(_)) => None,
        Some(Record::File(_) | Record::Link(_)) => Some(BrokenRule::NotADirectory),
        Some(Record::Deleted) | None => Some(BrokenRule::NoPath),
    }
}

/// The first rule that listing a directory of the view that is kept breaks.
fn list_rule(views: &Views, directory: Option<&PathName>) -> Option<BrokenRule>
    ensures { result ≡ list_told (rows_of views.now.kept) (option_copied directory.entry) }
{
    match directory {
        None => None,
        Some(directory) => directory_rule(views.find(directory)),
    }
}

/// Whether a path lies directly in a directory, or in the root if there is none.
fn is_child(path: &PathName, directory: Option<&PathName>) -> bool
    ensures { result ≡ is_child (option_copied directory.entry) path.now }
{
    match path.parent() {
        None => directory.is_none(),
        Some(found) => match directory {
            None => false,
            Some(directory) => found == directory.as_slice(),
        },
    }
}

/// The name of a path that lies in a directory, or want of memory.
fn name_in(alloc: Global, directory: &PathName, path: &PathName) -> Result<PathName, AllocError>
    requires { parent path.now ≡ Some directory.now }
    ensures { IfOk result (λ name. name ≡ drop (length directory.now + 1) path.now) }
{
    let directory = directory.as_slice();
    let path = path.as_slice();
    let (_, name) = path.split_at(directory.len() + 1);
    PathName::from_valid(alloc, name)
}

/// The entry of a row of what lies in a directory, or in the root, None for a deletion mark; or want of memory.
fn entry_of(
    alloc: Global,
    row: &Row,
    directory: Option<&PathName>,
) -> Result<Option<NamedNode>, AllocError>
    requires { is_child (option_copied directory) row.now.0 ≡ true }
    ensures { IfOk result (λ entry. entry ≡ entry_told (option_copied directory.entry) row.now) }
{
    let name = match directory {
        None => row.path().copy(alloc)?,
        Some(directory) => name_in(alloc, directory, row.path())?,
    };
    match node_of(alloc, row.node())? {
        Some(node) => Ok(Some(NamedNode { name, node })),
        None => Ok(None),
    }
}

/// A list with an entry more, if there is one; or want of memory.
fn push(list: &mut EntryList, entry: Option<NamedNode>) -> Result<(), AllocError>
    ensures { OnOk result (list.new ≡ list.old ++ pushed entry []) }
{
    match entry {
        Some(entry) => list.push(entry),
        None => Ok(()),
    }
}

/// What lies directly in a directory, or in the root, by rising names; or want of memory.
fn listed(
    alloc: Global,
    rows: &[Row],
    directory: Option<&PathName>,
) -> Result<EntryList, AllocError>
    ensures { IfOk result (λ list. list ≡ entries_told (option_copied directory.entry) rows.now) }
{
    let mut list = EntryList::new(alloc);
    for row in rows {
        if is_child(row.path(), directory) {
            push(&mut list, entry_of(alloc, row, directory)?)?;
        }
    }
    Ok(list)
}

/// What lies directly in a directory of the view that is kept, or in its root; or want of memory. Of a directory only the
/// rows below it are looked at.
fn entries_of(
    alloc: Global,
    views: &Views,
    directory: Option<&PathName>,
) -> Result<EntryList, AllocError>
    ensures { IfOk result (λ list. list ≡ entries_told (option_copied directory.entry) (rows_of views.now.kept)) }
{
    match directory {
        None => listed(alloc, views.rows(), directory),
        Some(path) => listed(alloc, views.within(path.as_slice()), directory),
    }
}

/// What lies directly in a directory of a backup, or in its root, by rising names. It changes nothing but which view is
/// kept, whether it answers or refuses: a host, a backup or a path that isn't there, a path of no directory, a table that
/// is damaged, a fault of the disk or want of memory.
pub fn list<D: Disk, N: Namer>(
    parts: &mut StoreParts<D, N>,
    alloc: Global,
    host: &HostName,
    number: u32,
    directory: Option<&PathName>,
) -> Result<Answer, Refusal>
    requires ready { parts.old.halted ≡ false }
    requires journal_ready { parts.old.journal.halted ≡ false }
    ensures runs { Runs parts.old (List host.now number (option_copied directory.entry)) result parts.new }
    ensures read { IsReadReply (ReadsTree parts.old host.now number) (HasDamagedTable parts.old host.now number)
        (ListsRows (option_copied directory.entry)) result }
{
    match load_backup(parts, alloc, host, number) {
        Ok(()) => {}
        Err(refusal) => return Err(refusal),
    }
    match list_rule(&parts.views, directory) {
        None => {}
        Some(rule) => return Err(Refusal::Broken(rule)),
    }
    match entries_of(alloc, &parts.views, directory) {
        Ok(entries) => Ok(Answer::Entries(entries)),
        Err(_) => Err(Refusal::Memory),
    }
}
