//! The folder commands: a folder becomes a host's next backup, and a backup a folder.

ghost use Rattle.std.specs.Prelude.{◌≡◌, ◌⊎◌, ℕ, List, Option};
ghost use Rattle.stream_traits.specs.Seen.{seen_of};
ghost use Rattle.settings_file.specs.Document.{IsSettings};
ghost use Rattle.settings_file.specs.declared.read.Settings.{Settings};
ghost use Rattle.command_line.specs.Line.{Line, DumpFolder, RestoreFolder};
ghost use Rattle.admin_cli.specs.Command.{AsksFor};
ghost use Rattle.admin_cli.specs.Run.{Refuses};
ghost use Rattle.admin_cli.specs.FolderTexts.{text_of_dump, text_of_restore};
ghost use Rattle.admin_cli.specs.Folders.{note_of_rule, note_of_call, note_of_dump, note_of_restore, DumpsFolder, RestoresFolder};

use crate::done::DoneOnLink;
use crate::folder_texts::{text_of_dump, text_of_restore};
use crate::nightly::note_of_all;
use crate::note::Note;
use crate::opening::open_store;
use crate::saying::say;
use attr_records::HostName;
use backup_rules::Kind;
use disk_trait::Disk;
use folder_restore::{RestoreRefusal, restore_folder};
use folder_trait::{Folder, Progress};
use folder_walk::{DumpRefusal, dump_folder};
use office_model::Refusal;
use pool_name::Namer;
use serve_workers::DirectPort;
use std::alloc::Global;
use stream_traits::{Clock, Faults, Link};

/// What is said if a rule was broken: of a halted store that it is.
pub fn note_of_rule(note: Note, halted: bool) -> Note
    ensures { result ≡ note_of_rule note halted }
{
    if halted { Note::DiskFailed } else { note }
}

/// What is said of a call that was refused.
pub fn note_of_call(refusal: &Refusal, halted: bool) -> Note
    ensures { result ≡ note_of_call refusal.now halted }
{
    match refusal {
        Refusal::Broken(rule) => note_of_rule(Note::Refused(*rule), halted),
        Refusal::Halted | Refusal::DiskFault => Note::DiskFailed,
        Refusal::Damaged { file, found: _ } => Note::Foreign(*file),
        Refusal::Memory => Note::NoMemory,
    }
}

/// What is said of a run that opened its store for a dump.
fn note_of_dump(dumped: &Result<u32, DumpRefusal>, failed: bool, halted: bool) -> Note
    ensures { result ≡ note_of_dump dumped.now failed halted }
{
    match dumped {
        Ok(_) => note_of_all(failed, halted),
        Err(DumpRefusal::Refused(refusal)) => note_of_call(refusal, halted),
        Err(DumpRefusal::BadPath(_)) => note_of_rule(Note::BadPath, halted),
        Err(DumpRefusal::BadTarget) => note_of_rule(Note::BadTarget, halted),
        Err(DumpRefusal::FileTooLarge) => note_of_rule(Note::FileTooLarge, halted),
        Err(DumpRefusal::Folder) => Note::FolderFailed,
        Err(DumpRefusal::Memory) => Note::NoMemory,
    }
}

/// What is said of a run that opened its store for a restore.
fn note_of_restore(restored: &Result<u32, RestoreRefusal>, failed: bool, halted: bool) -> Note
    ensures { result ≡ note_of_restore restored.now failed halted }
{
    match restored {
        Ok(_) => note_of_all(failed, halted),
        Err(RestoreRefusal::Refused(refusal)) => note_of_call(refusal, halted),
        Err(RestoreRefusal::NotEmpty) => note_of_rule(Note::FolderNotEmpty, halted),
        Err(RestoreRefusal::Folder) => Note::FolderFailed,
        Err(RestoreRefusal::Memory) => Note::NoMemory,
    }
}

/// Makes a folder a host's next backup in the store on the disk, and says on the link what came of it.
pub fn dump<D: Disk, N: Namer, C: Clock, L: Link, F: Folder, P: Progress>(
    alloc: Global,
    host: &HostName,
    kind: Kind,
    disk: D,
    namer: N,
    clock: &mut C,
    mut link: L,
    folder: &mut F,
    progress: &mut P,
) -> DoneOnLink<D, L>
    ensures { (line : Option Line) → (bytes path : List ℕ) → (read : Settings) → AsksFor (DumpFolder host.now kind path) line → IsSettings bytes read
        → DumpsFolder ⟦<D as Disk>⟧ N.digest_of ⟦<F as Folder>⟧ disk result.disk line bytes
        (seen_of ⟦<L as Faults>⟧ link) (seen_of ⟦<L as Faults>⟧ result.link) (C.moments clock.old) (C.moments clock.new)
        folder.old folder.new result.note
        ⊎ (Refuses ⟦<D as Disk>⟧ N.digest_of disk result.disk line bytes
        (seen_of ⟦<L as Faults>⟧ link) (seen_of ⟦<L as Faults>⟧ result.link) (C.moments clock.old) (C.moments clock.new) result.note
        × (folder.new ≡ folder.old)) }
{
    let store = match open_store(alloc, disk, namer) {
        Ok(store) => store,
        Err((disk, note)) => return DoneOnLink { note, disk, link },
    };
    let mut port = DirectPort::new(store);
    let dumped = dump_folder(alloc, &mut port, folder, host, kind, clock, progress);
    let failed = say(&mut link, text_of_dump(host, &dumped));
    let store = port.into_store();
    let halted = store.is_halted();
    DoneOnLink {
        note: note_of_dump(&dumped, failed, halted),
        disk: store.close(),
        link,
    }
}

/// Makes a backup of the store on the disk in a folder in which nothing lies, and says on the link what came of it.
pub fn restore<D: Disk, N: Namer, L: Link, F: Folder, P: Progress>(
    alloc: Global,
    host: &HostName,
    number: u32,
    disk: D,
    namer: N,
    mut link: L,
    folder: &mut F,
    progress: &mut P,
) -> DoneOnLink<D, L>
    ensures { (line : Option Line) → (bytes path : List ℕ) → (read : Settings) → (moments : Option (List ℕ))
        → AsksFor (RestoreFolder host.now number path) line → IsSettings bytes read
        → RestoresFolder ⟦<D as Disk>⟧ N.digest_of ⟦<F as Folder>⟧ disk result.disk line bytes
        (seen_of ⟦<L as Faults>⟧ link) (seen_of ⟦<L as Faults>⟧ result.link) moments moments folder.old folder.new result.note
        ⊎ (Refuses ⟦<D as Disk>⟧ N.digest_of disk result.disk line bytes
        (seen_of ⟦<L as Faults>⟧ link) (seen_of ⟦<L as Faults>⟧ result.link) moments moments result.note × (folder.new ≡ folder.old)) }
{
    let store = match open_store(alloc, disk, namer) {
        Ok(store) => store,
        Err((disk, note)) => return DoneOnLink { note, disk, link },
    };
    let mut port = DirectPort::new(store);
    let restored = restore_folder(alloc, &mut port, folder, host, number, progress);
    let failed = say(&mut link, text_of_restore(host, number, &restored));
    let store = port.into_store();
    let halted = store.is_halted();
    DoneOnLink {
        note: note_of_restore(&restored, failed, halted),
        disk: store.close(),
        link,
    }
}
