//! The command `migrate`: the tables of all hosts are written in the second layout.

ghost use Rattle.std.specs.Prelude.{◌≡◌, ◌⊎◌, ℕ, List, Option};
ghost use Rattle.stream_traits.specs.Seen.{seen_of};
ghost use Rattle.settings_file.specs.Document.{IsSettings};
ghost use Rattle.settings_file.specs.declared.read.Settings.{Settings};
ghost use Rattle.command_line.specs.Line.{Line, Migrate};
ghost use Rattle.admin_cli.specs.Command.{AsksFor};
ghost use Rattle.admin_cli.specs.Run.{Refuses};
ghost use Rattle.admin_cli.specs.Migrations.{note_of_migration, DoesMigration};

use crate::done::DoneOnLink;
use crate::folders::note_of_call;
use crate::nightly::note_of_all;
use crate::note::Note;
use crate::opening::open_store;
use crate::saying::say;
use disk_trait::Disk;
use migrate_work::{MigrationEnd, migrate};
use pool_name::Namer;
use serve_workers::DirectPort;
use std::alloc::Global;
use stream_traits::{Faults, Link};

/// What is said of a run that opened its store for a migration.
fn note_of_migration(end: &MigrationEnd, failed: bool, halted: bool) -> Note
    ensures { result ≡ note_of_migration end.now failed halted }
{
    match end {
        MigrationEnd::Done(_) => note_of_all(failed, halted),
        MigrationEnd::Refused(refusal) => note_of_call(refusal, halted),
        MigrationEnd::Memory => Note::NoMemory,
    }
}

/// Migrates all hosts of the store on the disk, and says on the link how many there are.
pub fn run_migration<D: Disk, N: Namer, L: Link>(
    alloc: Global,
    disk: D,
    namer: N,
    mut link: L,
) -> DoneOnLink<D, L>
    ensures { (line : Option Line) → (bytes : List ℕ) → (read : Settings) → (moments : Option (List ℕ))
        → AsksFor Migrate line → IsSettings bytes read
        → DoesMigration ⟦<D as Disk>⟧ N.digest_of disk result.disk line bytes
        (seen_of ⟦<L as Faults>⟧ link) (seen_of ⟦<L as Faults>⟧ result.link) moments moments result.note
        ⊎ Refuses ⟦<D as Disk>⟧ N.digest_of disk result.disk line bytes
        (seen_of ⟦<L as Faults>⟧ link) (seen_of ⟦<L as Faults>⟧ result.link) moments moments result.note }
{
    let store = match open_store(alloc, disk, namer) {
        Ok(store) => store,
        Err((disk, note)) => return DoneOnLink { note, disk, link },
    };
    let mut port = DirectPort::new(store);
    let end = migrate(alloc, &mut port);
    let failed = say(&mut link, end.text());
    let store = port.into_store();
    let halted = store.is_halted();
    DoneOnLink {
        note: note_of_migration(&end, failed, halted),
        disk: store.close(),
        link,
    }
}
