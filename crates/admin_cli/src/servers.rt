ghost use Rattle.std.specs.Prelude.{◌≡◌, ◌⊎◌, ◌<◌, ℕ, List, Option, IfOk};
ghost use Rattle.settings_file.specs.Document.{IsSettings};
ghost use Rattle.command_line.specs.Line.{Line, Serve};
ghost use Rattle.admin_cli.specs.Command.{AsksFor};
ghost use Rattle.admin_cli.specs.Run.{IsCause};
ghost use Rattle.admin_cli.specs.Servers.{counts_of, has_risen, note_of_served, ServesStore};

use crate::asked::interface_of;
use crate::done::DoneAtDoors;
use crate::note::Note;
use crate::opening::open_store;
use caller_doors::Door;
use disk_trait::Disk;
use pool_name::Namer;
use serve_workers::{Store, StoreAndWorkers, Worker, serve_workers};
use settings_file::Settings;
use std::alloc::{AllocError, Global};
use std::sync::Wait;
use std::thread::Threads;
use stream_traits::{Clock, Faults, Gate};

/// The counts of faults of the workers' doors.
fn counts_of<T: Door, C, G>(
    alloc: Global,
    workers: &[Worker<T, C, G>],
) -> Result<Vec<u64>, AllocError>
    ensures { IfOk result (λ counts. counts.items ≡ counts_of T.faults workers.now) }
{
    let mut counts = Vec::with_capacity(alloc, workers.len())?;
    for worker in workers {
        counts.push(worker.door.faults())?;
    }
    Ok(counts)
}

/// Whether a door has counted a fault since its count was this.
fn has_risen<T: Door, C, G>(counts: &[u64], workers: &[Worker<T, C, G>]) -> bool
    ensures { result ≡ has_risen counts.now (counts_of T.faults workers.now) }
{
    match counts {
        [] => false,
        [count, counts @ ..] => match workers {
            [] => false,
            [worker, workers @ ..] => {
                *count < worker.door.faults() || has_risen(counts, workers)
            }
        },
    }
}

/// What is said of a run whose workers served.
fn note_of_served(failed: bool, halted: bool) -> Note
    ensures { result ≡ note_of_served failed halted }
{
    if failed {
        Note::DoorFailed
    } else if halted {
        Note::DiskFailed
    } else {
        Note::Nothing
    }
}

/// Gives back the disk and the workers, for whom there was no memory.
fn without_memory<D: Disk, N: Namer, T, C, G>(
    store: Store<D, N>,
    workers: Vec<Worker<T, C, G>>,
) -> DoneAtDoors<D, T, C, G>
    ensures note { result.note ≡ Note.NoMemory }
    ensures disk { result.disk ≡ store.parts.journal.disk }
    ensures workers { result.workers ≡ workers }
{
    DoneAtDoors {
        note: Note::NoMemory,
        disk: store.close(),
        workers,
    }
}

/// Has all workers serve, by these settings, the store on the disk, until each has left its door. Without memory for the interface
/// the store isn't opened.
pub fn serve_store<
    D: Disk + Drop + Send,
    N: Namer + Send,
    T: Door + Drop,
    C: Clock + Drop,
    G: Gate + Drop,
    R: Threads + Wait + Sync,
>(
    rt: &R,
    alloc: Global,
    settings: Settings,
    disk: D,
    namer: N,
    workers: Vec<Worker<T, C, G>>,
) -> DoneAtDoors<D, T, C, G>
where
    N::State: Send,
    ensures { (line : Option Line) → (bytes listen : List ℕ) → (connections : Option ℕ) → AsksFor (Serve listen connections) line
        → IsSettings bytes settings
        → ServesStore ⟦<D as Disk>⟧ N.digest_of ⟦<T::Link as Faults>⟧ T.coming T.given_back T.faults C.moments
        disk result.disk line bytes workers.items result.workers.items result.note
        ⊎ (IsCause ⟦<D as Disk>⟧ N.digest_of disk result.disk line bytes result.note × (result.workers.items ≡ workers.items)) }
{
    let interface = match interface_of(alloc, settings) {
        Ok(interface) => interface,
        Err(AllocError) => {
            return DoneAtDoors {
                note: Note::NoMemory,
                disk,
                workers,
            };
        }
    };
    let store = match open_store(alloc, disk, namer) {
        Ok(store) => store,
        Err((disk, note)) => {
            return DoneAtDoors {
                note,
                disk,
                workers,
            };
        }
    };
    let Ok(counts) = counts_of(alloc, workers.as_slice()) else {
        return without_memory(store, workers);
    };
    let StoreAndWorkers { store, workers } = match serve_workers(
        rt, alloc, store, workers, &interface,
    ) {
        Ok(served) => served,
        Err(failed) => {
            let StoreAndWorkers { store, workers } = failed.value;
            return without_memory(store, workers);
        }
    };
    let failed = has_risen(counts.as_slice(), workers.as_slice());
    let halted = store.is_halted();
    DoneAtDoors {
        note: note_of_served(failed, halted),
        disk: store.close(),
        workers,
    }
}
