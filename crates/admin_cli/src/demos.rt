//! The command `demo`: a job that is drawn from a number, in a store without hosts.

ghost use Rattle.std.specs.Prelude.{◌≡◌, ◌⊎◌, ℕ, List, Option};
ghost use Rattle.stream_traits.specs.Seen.{seen_of};
ghost use Rattle.settings_file.specs.Document.{IsSettings};
ghost use Rattle.settings_file.specs.declared.read.Settings.{Settings};
ghost use Rattle.command_line.specs.Line.{Line, Demo};
ghost use Rattle.admin_cli.specs.Command.{AsksFor};
ghost use Rattle.admin_cli.specs.Run.{Refuses};
ghost use Rattle.admin_cli.specs.Demos.{note_of_demo, DoesDemo};

use crate::done::DoneOnLink;
use crate::folders::{note_of_call, note_of_rule};
use crate::nightly::note_of_all;
use crate::note::Note;
use crate::opening::open_store;
use crate::saying::say;
use demo_work::{DemoEnd, demo};
use disk_trait::Disk;
use pool_name::Namer;
use serve_workers::DirectPort;
use std::alloc::Global;
use stream_traits::{Faults, Link};

/// What is said of a run that opened its store for a demo.
fn note_of_demo(end: &DemoEnd, failed: bool, halted: bool) -> Note
    ensures { result ≡ note_of_demo end.now failed halted }
{
    match end {
        DemoEnd::Done(_) => note_of_all(failed, halted),
        DemoEnd::Occupied => note_of_rule(Note::StoreNotEmpty, halted),
        DemoEnd::Refused(refusal) => note_of_call(refusal, halted),
        DemoEnd::Memory => Note::NoMemory,
    }
}

/// Does the demo of a number in the store on the disk, and says on the link what came of it. Where a host is in the store, nothing is done.
pub fn run_demo<D: Disk, N: Namer, L: Link>(
    alloc: Global,
    number: u64,
    disk: D,
    namer: N,
    mut link: L,
) -> DoneOnLink<D, L>
    ensures { (line : Option Line) → (bytes : List ℕ) → (read : Settings) → (moments : Option (List ℕ))
        → AsksFor (Demo number) line → IsSettings bytes read
        → DoesDemo ⟦<D as Disk>⟧ N.digest_of disk result.disk line bytes
        (seen_of ⟦<L as Faults>⟧ link) (seen_of ⟦<L as Faults>⟧ result.link) moments moments result.note
        ⊎ Refuses ⟦<D as Disk>⟧ N.digest_of disk result.disk line bytes
        (seen_of ⟦<L as Faults>⟧ link) (seen_of ⟦<L as Faults>⟧ result.link) moments moments result.note }
{
    let store = match open_store(alloc, disk, namer) {
        Ok(store) => store,
        Err((disk, note)) => return DoneOnLink { note, disk, link },
    };
    let mut port = DirectPort::new(store);
    let end = demo(alloc, &mut port, number);
    let failed = say(&mut link, end.text());
    let store = port.into_store();
    let halted = store.is_halted();
    DoneOnLink {
        note: note_of_demo(&end, failed, halted),
        disk: store.close(),
        link,
    }
}
