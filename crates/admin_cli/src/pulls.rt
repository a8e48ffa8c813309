//! The command `pull`: a host's backups are brought from the server at the other end of the link.

ghost use Rattle.std.specs.Prelude.{◌≡◌, ◌⊎◌, ℕ, true, List, Option, IfOk};
ghost use Rattle.attr_records.specs.Names.{is_host_name};
ghost use Rattle.stream_traits.specs.Seen.{seen_of};
ghost use Rattle.settings_file.specs.Document.{IsSettings};
ghost use Rattle.command_line.specs.Line.{Line, Pull};
ghost use Rattle.admin_cli.specs.Command.{AsksFor};
ghost use Rattle.admin_cli.specs.Run.{Refuses};
ghost use Rattle.admin_cli.specs.Pulls.{note_of_pull, plan_of, DoesPull};

use crate::done::DoneOnLink;
use crate::folders::{note_of_call, note_of_rule};
use crate::note::Note;
use crate::opening::open_store;
use attr_records::HostName;
use disk_trait::Disk;
use folder_trait::Progress;
use http_wire::Wire;
use pool_name::Namer;
use pull_work::{Plan, PullEnd, pull};
use serve_workers::DirectPort;
use settings_file::Settings;
use std::alloc::{AllocError, Global};
use stream_traits::{Clock, Faults, Link, Moment};

/// What is said of a run that opened its store for a pull.
fn note_of_pull(host: HostName, end: PullEnd, halted: bool) -> Note
    ensures { result ≡ note_of_pull host end halted }
{
    match end {
        PullEnd::Done(count) => note_of_rule(Note::Pulled { host, count }, halted),
        PullEnd::Refused(refusal) => note_of_call(&refusal, halted),
        PullEnd::PeerRefused(status) => note_of_rule(Note::PeerRefused(status), halted),
        PullEnd::PeerForeign => note_of_rule(Note::PeerForeign, halted),
        PullEnd::LinkFault => Note::LinkFailed,
        PullEnd::Memory => Note::NoMemory,
    }
}

/// A host's name once more, or want of memory.
fn copied(alloc: Global, host: &HostName) -> Result<HostName, AllocError>
    ensures { IfOk result (λ copy. (copy ≡ host.now) × (is_host_name copy ≡ true)) }
{
    let _text = host.as_slice();
    host.copy(alloc)
}

/// What a pull of a host is to do, by these settings, from this moment on.
fn plan_of(host: HostName, settings: Settings, start: Moment) -> Plan
    ensures { result ≡ plan_of host settings start }
{
    let Settings {
        zone: _,
        wake: _,
        period: _,
        rules,
    } = settings;
    Plan { host, rules, start }
}

/// Pulls a host's backups from the server at the other end of the link into the store on the disk, by these settings. Without memory for
/// the host's name the store isn't opened, and the link is left alone. `progress` is told how many entries were read.
pub fn run_pull<D: Disk, N: Namer, C: Clock, L: Link, P: Progress>(
    alloc: Global,
    host: &HostName,
    settings: Settings,
    disk: D,
    namer: N,
    clock: &mut C,
    link: L,
    progress: &mut P,
) -> DoneOnLink<D, L>
    ensures { (line : Option Line) → (bytes from : List ℕ) → AsksFor (Pull host.now from) line → IsSettings bytes settings
        → DoesPull ⟦<D as Disk>⟧ N.digest_of disk result.disk line bytes
        (seen_of ⟦<L as Faults>⟧ link) (seen_of ⟦<L as Faults>⟧ result.link) (C.moments clock.old) (C.moments clock.new) result.note
        ⊎ Refuses ⟦<D as Disk>⟧ N.digest_of disk result.disk line bytes
        (seen_of ⟦<L as Faults>⟧ link) (seen_of ⟦<L as Faults>⟧ result.link) (C.moments clock.old) (C.moments clock.new) result.note }
{
    let host = match copied(alloc, host) {
        Ok(host) => host,
        Err(AllocError) => {
            return DoneOnLink {
                note: Note::NoMemory,
                disk,
                link,
            };
        }
    };
    let store = match open_store(alloc, disk, namer) {
        Ok(store) => store,
        Err((disk, note)) => return DoneOnLink { note, disk, link },
    };
    let plan = plan_of(host, settings, clock.now());
    let mut port = DirectPort::new(store);
    let mut wire = Wire::new(alloc, link);
    let end = pull(alloc, &mut port, &mut wire, &plan, progress);
    let link = wire.into_link();
    let Plan {
        host,
        rules: _,
        start: _,
    } = plan;
    let store = port.into_store();
    let halted = store.is_halted();
    DoneOnLink {
        note: note_of_pull(host, end, halted),
        disk: store.close(),
        link,
    }
}
