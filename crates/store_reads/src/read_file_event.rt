//! The event ReadFile.

ghost use Rattle.std.specs.Prelude.{◌≡◌, false};
ghost use Rattle.std.specs.Option.{option_copied};
ghost use Rattle.journal_view.specs.View.{told};
ghost use Rattle.office_model.specs.declared.event.Event.TheVariants.{ReadFile};
ghost use Rattle.store_parts.specs.Runs.{Runs};
ghost use Rattle.store_reads.specs.Shown.{file_told, content_told};
ghost use Rattle.store_reads.specs.Told.{ReadsTree, HasDamagedTable, IsReadReply, GivesFile};

use crate::content::read_content;
use crate::load::load_backup;
use attr_records::{HostName, PathName, PutRule};
use attr_tables::{Record, StoredFile};
use disk_trait::{Disk, PoolId};
use office_model::{ANSWER_LIMIT, Answer, BrokenRule, Refusal};
use pool_name::Namer;
use std::alloc::Global;
use store_parts::StoreParts;

/// The file that a record tells.
pub fn file_of(found: Option<&Record>) -> Result<StoredFile, BrokenRule>
    ensures { result ≡ file_told (option_copied found.entry) }
{
    match found {
        Some(Record::File(file)) => Ok(*file),
        Some(Record::Dir(_) | Record::Link(_)) => Err(BrokenRule::NotAFile),
        Some(Record::Deleted) | None => Err(BrokenRule::NoPath),
    }
}

/// The content of the file that a record tells, None if it has no bytes. It refuses a file that no answer can hold.
fn content_of(found: Option<&Record>) -> Result<Option<PoolId>, BrokenRule>
    ensures { result ≡ content_told (option_copied found.entry) }
{
    match file_of(found) {
        Ok(file) => {
            if file.size > ANSWER_LIMIT {
                Err(BrokenRule::Put(PutRule::FileTooLarge))
            } else {
                Ok(file.content)
            }
        }
        Err(rule) => Err(rule),
    }
}

/// The bytes of the file at a path of a backup. It changes nothing but which view is kept, whether it answers or refuses:
/// a host, a backup or a path that isn't there, a path of no file, a file of more bytes than one answer holds, of which nothing is
/// read, a table or a content that is damaged, a fault of the disk or want of memory.
pub fn read_file<D: Disk, N: Namer>(
    parts: &mut StoreParts<D, N>,
    alloc: Global,
    host: &HostName,
    number: u32,
    path: &PathName,
) -> Result<Answer, Refusal>
    requires ready { parts.old.halted ≡ false }
    requires journal_ready { parts.old.journal.halted ≡ false }
    ensures runs { Runs parts.old (ReadFile host.now number path.now) result parts.new }
    ensures read { IsReadReply (ReadsTree parts.old host.now number) (HasDamagedTable parts.old host.now number)
        (GivesFile N.digest_of (told parts.old.journal) path.now) result }
{
    match load_backup(parts, alloc, host, number) {
        Ok(()) => {}
        Err(refusal) => return Err(refusal),
    }
    let content = match content_of(parts.views.find(path)) {
        Ok(content) => content,
        Err(rule) => return Err(Refusal::Broken(rule)),
    };
    match read_content(parts, alloc, content) {
        Ok(bytes) => Ok(Answer::Content(bytes)),
        Err(refusal) => Err(refusal),
    }
}
