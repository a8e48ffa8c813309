//! Runs and stores in threads.

use crate::ends::{Case, Machine, QUIET, Want, disk_of, expect_end, link_of, new_clock, words_of};
use crate::files::{COMMIT, COMMITTED, CONTENT, READ};
use admin_cli::{Done, Store, run};
use caller_doors::ListDoor;
use command_line::Parsed;
use disk_trait::{Disk, MemoryDisk};
use folder_trait::{MemoryFolder, NoProgress};
use office_model::{Answer, Event, Refusal};
use pool_name::Md5Namer;
use std::alloc::Global;
use std::test::Fail;
use std::thread::{Threads, join};
use stream_traits::{Clock, Link, OpenGate};

/// How a run without workers ended.
type Alone<D, L, C> = Done<D, L, ListDoor, C, OpenGate>;

/// Takes a disk, a clock and a link into a thread, where the program runs over them without workers, and gives back how it ended.
fn run_apart<D: Disk + Send + Drop, C: Clock + Drop, L: Link + Send + Drop>(
    rt: &impl Machine,
    words: Vec<String>,
    disk: D,
    mut clock: C,
    link: L,
) -> Alone<D, L, C> {
    let alloc = rt.alloc();
    let work = move || {
        let mut folder = MemoryFolder::new(alloc, Vec::new(alloc));
        run(
            rt,
            alloc,
            &Parsed::read(alloc, words.as_slice()),
            &[],
            disk,
            Md5Namer,
            &mut clock,
            link,
            Vec::new(alloc),
            &mut folder,
            &mut NoProgress,
        )
    };
    let (seen, ()) = join(rt, work, || ());
    seen
}

/// Takes a store into a thread, where it carries out an event, and gives it back.
fn apply_apart<D: Disk + Send + Drop>(
    rt: &impl Threads,
    alloc: Global,
    mut store: Store<D, Md5Namer>,
    event: Event,
) -> (Result<Answer, Refusal>, Store<D, Md5Namer>) {
    let work = move || {
        let reply = store.apply(alloc, &event);
        (reply, store)
    };
    let (seen, ()) = join(rt, work, || ());
    seen
}

/// Fails where a run in a thread doesn't end as it was to.
fn expect_apart(rt: &impl Machine, case: &Case<'_>, want: &Want<'_>) -> Result<(), Fail> {
    let alloc = rt.alloc();
    let words = words_of(alloc, case.line)?;
    let disk = disk_of(alloc, case)?;
    let link = link_of(alloc, case)?;
    let done = run_apart(rt, words, disk, new_clock(), link);
    expect_end(alloc, &done, want)
}

#[test]
fn a_run_serves_within_a_thread(rt: HostRuntime) -> Result<(), Fail> {
    let case = Case {
        input: &[COMMIT, READ],
        ..QUIET
    };
    let want = Want {
        status: 0,
        said: "",
        output: &[COMMITTED, CONTENT],
    };
    expect_apart(&rt, &case, &want)
}

/// Asks a store for its hosts, in a thread.
fn expect_asked_apart(rt: &impl Threads, alloc: Global, disk: MemoryDisk) -> Result<(), Fail> {
    let Ok(store) = Store::open(alloc, disk, Md5Namer) else {
        return Err(Fail::new("no store"));
    };
    let (reply, store) = apply_apart(rt, alloc, store, Event::Hosts);
    if matches!(reply, Ok(Answer::Hosts(_))) && !store.is_halted() {
        return Ok(());
    }
    Err(Fail::new("no hosts were told"))
}

#[test]
fn a_store_serves_within_a_thread(rt: HostRuntime) -> Result<(), Fail> {
    let disk = disk_of(rt.alloc(), &QUIET)?;
    expect_asked_apart(&rt, rt.alloc(), disk)
}
