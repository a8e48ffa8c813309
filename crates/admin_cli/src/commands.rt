ghost use Rattle.std.specs.Prelude.{map};
ghost use Rattle.std.specs.String.{string_bytes};
ghost use Rattle.stream_traits.specs.Seen.{seen_of};
ghost use Rattle.command_line.specs.Line.{line_of};
ghost use Rattle.admin_cli.specs.Asked.{TellsRefusals};
ghost use Rattle.admin_cli.specs.Run.{IsComplete};
ghost use Rattle.admin_cli.specs.Runs.{Runs};
ghost use Rattle.admin_cli.specs.Servers.{counts_of};

use crate::asked::{Asked, read_asked};
use crate::demos::run_demo;
use crate::done::Done;
use crate::folders::{dump, restore};
use crate::migrations::run_migration;
use crate::nightly::run_night;
use crate::pipe::serve_pipe;
use crate::pulls::run_pull;
use crate::servers::serve_store;
use caller_doors::Door;
use command_line::{Parsed, Work};
use disk_trait::Disk;
use folder_trait::{Folder, Progress};
use pool_name::Namer;
use serve_workers::Worker;
use std::alloc::Global;
use std::sync::Wait;
use std::thread::Threads;
use stream_traits::{Clock, Faults, Gate, Link};

/// Does what the words ask. The first word is the program's name. From the store on the disk, which a disk without files is, too,
/// `pipe --store DIR [--settings FILE]` serves one connection over the link; `serve --listen ADDR [--connections N]` has all workers
/// serve the links of their doors beside each other, until each door is closed or failed; `night [--scheduled]` does a night's
/// work on it, and says what came of it on the link; `migrate` writes all tables that are of the first layout anew in the second, and says
/// on the link how many hosts there are; `dump-folder --host H --kind full|incr FOLDER` makes the folder the host's next
/// backup; and `restore-folder --host H --number N FOLDER` makes a backup in the folder, in which nothing lies. Both say so on the
/// link, and tell `progress` how far they are; which real folder FOLDER is, is the caller's matter. `demo NUMBER` does a job of sixty days
/// that is drawn from the number, in a store without hosts, and says on the link what came of it. `pull --host H --from ADDR` brings the
/// host's backups from the server to which the link leads: on it stand its requests alone, and `progress` is told how far it is. That it
/// leads to ADDR is the caller's matter.
/// The settings are the bytes of the file, and empty without one: a host that is added, by a request or a pull, has their rules, what is
/// due is decided by their zone's clock, and so are the night's buckets and its time. The words are read first, then the settings; a disk,
/// a link, a clock, a folder and doors whose words or settings are refused are left alone, and the folder by each other command. Doors serve
/// nobody but for `serve`, and then the link and the clock are left alone; each worker asks its own clock. A link of a door that fails, or
/// want of memory in a connection there, ends that connection alone. Without workers `serve` serves nobody and ends.
///
/// After each note but `Usage` and `BadSettings` the disk stands for an office as an event or the opening left it, and can be opened
/// again.
pub fn run<
    D: Disk + Drop + Send,
    N: Namer + Send,
    C: Clock + Drop,
    L: Link,
    T: Door + Drop,
    G: Gate + Drop,
    F: Folder,
    P: Progress,
    R: Threads + Wait + Sync,
>(
    rt: &R,
    alloc: Global,
    parsed: &Parsed<'_>,
    settings: &[u8],
    disk: D,
    namer: N,
    clock: &mut C,
    link: L,
    workers: Vec<Worker<T, C, G>>,
    folder: &mut F,
    progress: &mut P,
) -> Done<D, L, T, C, G>
where
    N::State: Send,
    ensures headline { Runs ⟦<D as Disk>⟧ ⟦<F as Folder>⟧ N.digest_of ⟦<T::Link as Faults>⟧ T.coming T.given_back T.faults C.moments
        disk result.disk (line_of (map string_bytes parsed.now.words.now)) settings.now
        (seen_of ⟦<L as Faults>⟧ link) (seen_of ⟦<L as Faults>⟧ result.link) (C.moments clock.old) (C.moments clock.new)
        folder.old folder.new workers.items result.workers.items result.note }
    ensures refusals { TellsRefusals (line_of (map string_bytes parsed.now.words.now)) settings.now result.note }
    ensures complete { IsComplete ⟦<D as Disk>⟧ N.digest_of disk result.disk (line_of (map string_bytes parsed.now.words.now)) settings.now
        (L.faults link) (L.faults result.link) (counts_of T.faults workers.items) (counts_of T.faults result.workers.items)
        (F.fault_count folder.old) (F.fault_count folder.new) result.note }
{
    do_asked(
        rt, alloc, parsed, settings, disk, namer, clock, link, workers, folder, progress,
    )
}

/// Does what the words ask, if they and the settings are understood.
fn do_asked<
    D: Disk + Drop + Send,
    N: Namer + Send,
    C: Clock + Drop,
    L: Link,
    T: Door + Drop,
    G: Gate + Drop,
    F: Folder,
    P: Progress,
    R: Threads + Wait + Sync,
>(
    rt: &R,
    alloc: Global,
    parsed: &Parsed<'_>,
    settings: &[u8],
    disk: D,
    namer: N,
    clock: &mut C,
    link: L,
    workers: Vec<Worker<T, C, G>>,
    folder: &mut F,
    progress: &mut P,
) -> Done<D, L, T, C, G>
where
    N::State: Send,
    ensures { Runs ⟦<D as Disk>⟧ ⟦<F as Folder>⟧ N.digest_of ⟦<T::Link as Faults>⟧ T.coming T.given_back T.faults C.moments
        disk result.disk (line_of (map string_bytes parsed.now.words.now)) settings.now
        (seen_of ⟦<L as Faults>⟧ link) (seen_of ⟦<L as Faults>⟧ result.link) (C.moments clock.old) (C.moments clock.new)
        folder.old folder.new workers.items result.workers.items result.note }
{
    let Asked { work, settings } = match read_asked(alloc, parsed, settings) {
        Ok(asked) => asked,
        Err(note) => return Done::new(note, disk, link, workers),
    };
    match work {
        Work::Pipe => serve_pipe(alloc, settings, disk, namer, clock, link).with_workers(workers),
        Work::Night { scheduled } => run_night(
            alloc, &settings, *scheduled, disk, namer, clock, link,
        ).with_workers(workers),
        Work::Migrate => run_migration(alloc, disk, namer, link).with_workers(workers),
        Work::DumpFolder {
            host,
            kind,
            folder: _,
        } => dump(
            alloc, host, *kind, disk, namer, clock, link, folder, progress,
        )
        .with_workers(workers),
        Work::RestoreFolder {
            host,
            number,
            folder: _,
        } => restore(alloc, host, *number, disk, namer, link, folder, progress).with_workers(
            workers,
        ),
        Work::Demo { number } => run_demo(alloc, *number, disk, namer, link).with_workers(workers),
        Work::Pull { host, from: _ } => {
            run_pull(alloc, host, settings, disk, namer, clock, link, progress).with_workers(
                workers,
            )
        }
        Work::Serve {
            listen: _,
            connections: _,
        } => serve_store(rt, alloc, settings, disk, namer, workers).with_link(link),
    }
}
