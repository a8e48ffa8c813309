ghost use Rattle.std.specs.Prelude.{◌≡◌, ◌⊎◌, ◌<◌, ℕ, List, Option};
ghost use Rattle.stream_traits.specs.Seen.{seen_of};
ghost use Rattle.settings_file.specs.Document.{IsSettings};
ghost use Rattle.command_line.specs.Line.{Line, Night};
ghost use Rattle.admin_cli.specs.Command.{AsksFor};
ghost use Rattle.admin_cli.specs.Nights.{note_of_all, note_of_refused, note_of_night, DoesNight};
ghost use Rattle.admin_cli.specs.Run.{Refuses};

use crate::done::DoneOnLink;
use crate::note::Note;
use crate::opening::open_store;
use crate::saying::say;
use disk_trait::Disk;
use night_work::{NightEnd, night};
use office_model::Refusal;
use pool_name::Namer;
use serve_workers::DirectPort;
use settings_file::Settings;
use std::alloc::Global;
use stream_traits::{Clock, Faults, Link};

/// What is said if nothing failed but the link or the disk.
pub fn note_of_all(failed: bool, halted: bool) -> Note
    ensures { result ≡ note_of_all failed halted }
{
    if failed {
        Note::LinkFailed
    } else if halted {
        Note::DiskFailed
    } else {
        Note::Nothing
    }
}

/// What is said of a night that ended at a refusal. No event of a night breaks a rule.
fn note_of_refused(refusal: &Refusal, halted: bool) -> Note
    ensures { result ≡ note_of_refused refusal.now halted }
{
    match refusal {
        Refusal::Broken(_) => note_of_all(false, halted),
        Refusal::Halted | Refusal::DiskFault => Note::DiskFailed,
        Refusal::Damaged { file, found: _ } => Note::Foreign(*file),
        Refusal::Memory => Note::NoMemory,
    }
}

/// What is said of a run that opened its store for a night.
fn note_of_night(end: &NightEnd, failed: bool, halted: bool) -> Note
    ensures { result ≡ note_of_night end.now failed halted }
{
    match end {
        NightEnd::Done(_) | NightEnd::NotNow => note_of_all(failed, halted),
        NightEnd::Refused(refusal) => note_of_refused(refusal, halted),
        NightEnd::Memory => Note::NoMemory,
    }
}

/// Does a night's work, by these settings, on the store on the disk, and says on the link what came of it.
pub fn run_night<D: Disk, N: Namer, C: Clock, L: Link>(
    alloc: Global,
    settings: &Settings,
    scheduled: bool,
    disk: D,
    namer: N,
    clock: &mut C,
    mut link: L,
) -> DoneOnLink<D, L>
    requires { 0 < settings.now.period }
    ensures { (line : Option Line) → (bytes : List ℕ) → AsksFor (Night scheduled) line → IsSettings bytes settings.now
        → DoesNight ⟦<D as Disk>⟧ N.digest_of disk result.disk line bytes
        (seen_of ⟦<L as Faults>⟧ link) (seen_of ⟦<L as Faults>⟧ result.link) (C.moments clock.old) (C.moments clock.new) result.note
        ⊎ Refuses ⟦<D as Disk>⟧ N.digest_of disk result.disk line bytes
        (seen_of ⟦<L as Faults>⟧ link) (seen_of ⟦<L as Faults>⟧ result.link) (C.moments clock.old) (C.moments clock.new) result.note }
{
    let store = match open_store(alloc, disk, namer) {
        Ok(store) => store,
        Err((disk, note)) => return DoneOnLink { note, disk, link },
    };
    let mut port = DirectPort::new(store);
    let end = night(
        alloc,
        &mut port,
        clock,
        &settings.zone,
        settings.wake.as_slice(),
        settings.period,
        scheduled,
    );
    let failed = say(&mut link, end.text());
    let store = port.into_store();
    let halted = store.is_halted();
    DoneOnLink {
        note: note_of_night(&end, failed, halted),
        disk: store.close(),
        link,
    }
}
