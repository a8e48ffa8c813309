ghost use Rattle.std.specs.Prelude.{◌≡◌, ◌≤◌, [], IfOk, IfErr, IfSome, vec_capacity};
ghost use Rattle.serve_workers.specs.Workers.{ServesAll};

use crate::seating::{rise_workers, seat_workers};
use browse_http::Interface;
use caller_doors::Door;
use disk_trait::Disk;
use door_server::{Worker, serve_callers};
use pool_name::Namer;
use std::alloc::{AllocFailed, Global};
use std::sync::Wait;
use std::thread::Threads;
use stream_traits::{Clock, Faults, Gate};
use turn_port::{Store, close_store, lock_store};

/// A store, and workers who are to serve it or have served it.
#[derive(Drop)]
pub struct StoreAndWorkers<D: Disk, N: Namer, T, C, G> {
    pub store: Store<D, N>,
    pub workers: Vec<Worker<T, C, G>>,
}

/// Serves a store at the doors of all workers beside each other, each in a thread of its own where one can be made, and gives
/// back the store and the workers once each has left its door, which was closed or failed. The store then came by one legal
/// history of all calls, in which the entries of each worker's number are the calls of the talks at its door, in order; a link that
/// fails, or want of memory in a connection, ends that connection alone. Without memory nobody serves, and all come back as they were.
pub fn serve_workers<
    D: Disk + Drop + Send,
    N: Namer + Send,
    T: Door + Drop,
    C: Clock + Drop,
    G: Gate + Drop,
    R: Threads + Wait + Sync,
>(
    rt: &R,
    alloc: Global,
    store: Store<D, N>,
    workers: Vec<Worker<T, C, G>>,
    interface: &Interface,
) -> Result<StoreAndWorkers<D, N, T, C, G>, AllocFailed<StoreAndWorkers<D, N, T, C, G>>>
where
    N::State: Send,
    ensures ok { IfOk result (λ served. ServesAll interface.now.defaults ⟦<T::Link as Faults>⟧ T.coming T.given_back T.faults C.moments
        store served.store workers.items served.workers.items) }
    ensures err { IfErr result (λ failed. (failed.value.store ≡ store) × (failed.value.workers ≡ workers)) }
{
    let Some((callers, left, passes)) = rooms(alloc, workers.len()) else {
        return Err(AllocFailed {
            value: StoreAndWorkers { store, workers },
        });
    };
    let (turn, mut first) = match lock_store(alloc, store) {
        Ok(made) => made,
        Err(failed) => {
            let store = failed.value;
            return Err(AllocFailed {
                value: StoreAndWorkers { store, workers },
            });
        }
    };
    let mut callers = seat_workers(rt, &turn, &mut first, workers, callers);
    serve_callers(rt, alloc, callers.as_mut_slice(), interface);
    let (workers, passes) = rise_workers(callers, left, passes);
    let store = close_store(rt, turn, first, passes);
    Ok(StoreAndWorkers { store, workers })
}

/// Room for so many of three kinds.
fn rooms<X: Drop, Y: Drop, Z: Drop>(alloc: Global, count: usize) -> Option<(Vec<X>, Vec<Y>, Vec<Z>)>
    ensures empty { IfSome result (λ r. (r.0.items ≡ []) × (r.1.items ≡ []) × (r.2.items ≡ [])) }
    ensures room { IfSome result (λ r. (count ≤ vec_capacity r.0) × (count ≤ vec_capacity r.1) × (count ≤ vec_capacity r.2)) }
{
    let first = Vec::with_capacity(alloc, count).ok()?;
    let second = Vec::with_capacity(alloc, count).ok()?;
    let third = Vec::with_capacity(alloc, count).ok()?;
    Some((first, second, third))
}
