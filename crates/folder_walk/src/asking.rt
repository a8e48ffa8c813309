//! The calls of a dump, one each.

ghost use Rattle.std.specs.Prelude.{◌≡◌, ◌≢◌, [], ◌∷◌, Option, None, Ok, IfOk, IfErr, OnOk};
ghost use Rattle.std.specs.Option.{option_copied};
ghost use Rattle.attr_records.specs.Items.{Tree};
ghost use Rattle.office_model.specs.declared.event.Event.TheVariants as E;
ghost use Rattle.office_model.specs.declared.answer.Answer.TheVariants as A;
ghost use Rattle.folder_laws.specs.Calls.{remove_call, commit_call};
ghost use Rattle.folder_walk.specs.Causes.{IsDumpCause};
ghost use Rattle.folder_walk.specs.Puts.{IsCallFault};
ghost use Rattle.folder_walk.specs.Bases.{LastAsked, IsFailedCall};
ghost use Rattle.folder_walk.specs.Dumps.{opening_call};

use crate::refusals::DumpRefusal;
use attr_records::{HostName, PathName};
use backup_rules::Kind;
use office_model::{Answer, EntryList, Event, Port, SessionName};
use std::alloc::{AllocError, Global};
use stream_traits::Moment;

/// What an opening was answered with: the dump's name, or the number of the backup that it is already.
#[derive(Clone, Copy, Debug)]
pub(crate) enum Opening {
    Dump(SessionName),
    Already(u32),
}

/// Opens a dump.
pub(crate) fn open_dump<P: Port>(
    alloc: Global,
    port: &mut P,
    host: &HostName,
    kind: Kind,
    now: Moment,
) -> Result<Opening, DumpRefusal>
    ensures ok { IfOk result (λ opening. P.moves port.old (opening_call host.now kind now opening ∷ []) port.new) }
    ensures err { IfErr result (IsFailedCall P.moves port.old port.new (E.OpenDump host.now kind now None)) }
    ensures cause { (told : Option Tree) → IfErr result (IsDumpCause told) }
    ensures unfailed { IfErr result (λ fault. fault ≢ DumpRefusal.Folder) }
{
    let Ok(host) = host.copy(alloc) else {
        return Err(DumpRefusal::Memory);
    };
    match port.call(
        alloc,
        &Event::OpenDump {
            host,
            kind,
            now,
            token: None,
        },
    ) {
        Ok(Answer::Dump(dump)) => Ok(Opening::Dump(dump)),
        Ok(Answer::Already(number)) => Ok(Opening::Already(number)),
        Ok(_) => unreachable!(),
        Err(refusal) => Err(DumpRefusal::Refused(refusal)),
    }
}

/// Removes a path from a dump.
pub(crate) fn remove<P: Port>(
    alloc: Global,
    port: &mut P,
    dump: SessionName,
    path: PathName,
) -> Result<(), DumpRefusal>
    ensures ok { OnOk result (P.moves port.old (remove_call dump path ∷ []) port.new) }
    ensures err { IfErr result (IsCallFault P.moves port.old port.new (E.Remove dump path None)) }
    ensures cause { (told : Option Tree) → IfErr result (IsDumpCause told) }
    ensures unfailed { IfErr result (λ fault. fault ≢ DumpRefusal.Folder) }
{
    match port.call(
        alloc,
        &Event::Remove {
            dump,
            path,
            token: None,
        },
    ) {
        Ok(_) => Ok(()),
        Err(refusal) => Err(DumpRefusal::Refused(refusal)),
    }
}

/// Commits a dump.
pub(crate) fn commit<P: Port>(
    alloc: Global,
    port: &mut P,
    dump: SessionName,
    now: Moment,
) -> Result<u32, DumpRefusal>
    ensures ok { IfOk result (λ number. P.moves port.old (commit_call dump now number ∷ []) port.new) }
    ensures err { IfErr result (IsCallFault P.moves port.old port.new (E.Commit dump now)) }
    ensures cause { (told : Option Tree) → IfErr result (IsDumpCause told) }
    ensures unfailed { IfErr result (λ fault. fault ≢ DumpRefusal.Folder) }
{
    match port.call(alloc, &Event::Commit { dump, now }) {
        Ok(Answer::Committed(number)) => Ok(number),
        Ok(_) => unreachable!(),
        Err(refusal) => Err(DumpRefusal::Refused(refusal)),
    }
}

/// The number of the host's last backup.
pub(crate) fn last_number<P: Port>(
    alloc: Global,
    port: &mut P,
    host: &HostName,
) -> Result<Option<u32>, DumpRefusal>
    ensures ok { IfOk result (LastAsked P.moves port.old port.new host.now) }
    ensures err { IfErr result (IsFailedCall P.moves port.old port.new (E.Backups host.now)) }
    ensures cause { (told : Option Tree) → IfErr result (IsDumpCause told) }
    ensures unfailed { IfErr result (λ fault. fault ≢ DumpRefusal.Folder) }
{
    let Ok(host) = host.copy(alloc) else {
        return Err(DumpRefusal::Memory);
    };
    match port.call(alloc, &Event::Backups { host }) {
        Ok(Answer::Backups { lines, .. }) => match lines.as_slice().last() {
            Some(line) => Ok(Some(line.number)),
            None => Ok(None),
        },
        Ok(_) => unreachable!(),
        Err(refusal) => Err(DumpRefusal::Refused(refusal)),
    }
}

/// The path of a directory, once more.
fn copy_directory(
    alloc: Global,
    directory: Option<&PathName>,
) -> Result<Option<PathName>, AllocError>
    ensures { IfOk result (λ copy. copy ≡ option_copied directory.entry) }
{
    match directory {
        None => Ok(None),
        Some(directory) => Ok(Some(directory.copy(alloc)?)),
    }
}

/// What lies in a directory of a backup.
pub(crate) fn ask_list<P: Port>(
    alloc: Global,
    port: &mut P,
    host: &HostName,
    number: u32,
    directory: Option<&PathName>,
) -> Result<EntryList, DumpRefusal>
    ensures ok { IfOk result (λ entries. P.moves port.old ((E.List host.now number (option_copied directory.entry), Ok (A.Entries entries)) ∷ []) port.new) }
    ensures err { IfErr result (IsFailedCall P.moves port.old port.new (E.List host.now number (option_copied directory.entry))) }
    ensures cause { (told : Option Tree) → IfErr result (IsDumpCause told) }
    ensures unfailed { IfErr result (λ fault. fault ≢ DumpRefusal.Folder) }
{
    let Ok(host) = host.copy(alloc) else {
        return Err(DumpRefusal::Memory);
    };
    let Ok(directory) = copy_directory(alloc, directory) else {
        return Err(DumpRefusal::Memory);
    };
    let event = Event::List {
        host,
        number,
        directory,
    };
    match port.call(alloc, &event) {
        Ok(Answer::Entries(entries)) => Ok(entries),
        Ok(_) => unreachable!(),
        Err(refusal) => Err(DumpRefusal::Refused(refusal)),
    }
}
