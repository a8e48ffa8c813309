ghost use Rattle.std.specs.Prelude.{◌≡◌, ◌⊎◌, ℕ, List, Option};
ghost use Rattle.stream_traits.specs.Seen.{seen_of};
ghost use Rattle.settings_file.specs.Document.{IsSettings};
ghost use Rattle.command_line.specs.Line.{Line, Pipe};
ghost use Rattle.admin_cli.specs.Command.{AsksFor};
ghost use Rattle.admin_cli.specs.Run.{note_of, Serves, Refuses};

use crate::asked::interface_of;
use crate::done::DoneOnLink;
use crate::note::Note;
use crate::opening::open_store;
use browse_http::{End, Served, serve_connection};
use disk_trait::Disk;
use pool_name::Namer;
use serve_workers::DirectPort;
use settings_file::Settings;
use std::alloc::{AllocError, Global};
use stream_traits::{Clock, Faults, Link, OpenGate};

/// What is said of a run that served its connection.
fn note_of(end: &End, halted: bool) -> Note
    ensures { result ≡ note_of end.now halted }
{
    match end {
        End::Memory => Note::NoMemory,
        End::LinkFault => Note::LinkFailed,
        _ if halted => Note::DiskFailed,
        End::Ended => Note::Nothing,
        End::Truncated => Note::InputEnded,
        End::BadRequest => Note::NotUnderstood,
        End::Cut(_) => Note::ResponseCut,
    }
}

/// Serves one connection over the link, by these settings, from the store on the disk. Without memory for the interface the store
/// isn't opened, and the link is left alone.
pub fn serve_pipe<D: Disk, N: Namer, C: Clock, L: Link>(
    alloc: Global,
    settings: Settings,
    disk: D,
    namer: N,
    clock: &mut C,
    link: L,
) -> DoneOnLink<D, L>
    ensures { (line : Option Line) → (bytes : List ℕ) → AsksFor Pipe line → IsSettings bytes settings
        → Serves ⟦<D as Disk>⟧ N.digest_of disk result.disk line bytes
        (seen_of ⟦<L as Faults>⟧ link) (seen_of ⟦<L as Faults>⟧ result.link) (C.moments clock.old) (C.moments clock.new) result.note
        ⊎ Refuses ⟦<D as Disk>⟧ N.digest_of disk result.disk line bytes
        (seen_of ⟦<L as Faults>⟧ link) (seen_of ⟦<L as Faults>⟧ result.link) (C.moments clock.old) (C.moments clock.new) result.note }
{
    let interface = match interface_of(alloc, settings) {
        Ok(interface) => interface,
        Err(AllocError) => {
            return DoneOnLink {
                note: Note::NoMemory,
                disk,
                link,
            };
        }
    };
    let store = match open_store(alloc, disk, namer) {
        Ok(store) => store,
        Err((disk, note)) => return DoneOnLink { note, disk, link },
    };
    let mut port = DirectPort::new(store);
    let Served { end, link } = serve_connection(
        alloc,
        &mut port,
        link,
        clock,
        &mut OpenGate,
        &interface,
    );
    let store = port.into_store();
    let halted = store.is_halted();
    DoneOnLink {
        note: note_of(&end, halted),
        disk: store.close(),
        link,
    }
}
