// Ports of workers, over passes that are split from the first.
ghost use Rattle.std.specs.Prelude.{◌≡◌, ◌≤◌, [], ◌∷◌, map, vec_len, vec_capacity};
ghost use Rattle.turn_lock.specs.History.{caller};
ghost use Rattle.serve_workers.specs.Seated.{AreSeated};

use disk_trait::Disk;
use door_server::{Caller, Worker};
use pool_name::Namer;
use std::sync::Wait;
use turn_port::{StorePass, StoreTurn, TurnPort};

/// A worker with a port to a locked store.
pub(crate) type StoreCaller<'a, D, N, R, T, C, G> = Caller<TurnPort<'a, D, N, R>, T, C, G>;

/// Gives each worker a port over a pass of its own, which is split from the first.
pub(crate) fn seat_workers<'a, D: Disk + Drop, N: Namer, R: Wait, T: Drop, C: Drop, G: Drop>(
    rt: &'a R,
    turn: &'a StoreTurn<D, N>,
    first: &mut StorePass<D, N>,
    workers: Vec<Worker<T, C, G>>,
    mut callers: Vec<StoreCaller<'a, D, N, R, T, C, G>>,
) -> Vec<StoreCaller<'a, D, N, R, T, C, G>>
    requires own { first.old.seat.table_id ≡ turn.now.table.shared.table_id }
    requires fresh { first.old.seat.me.0.callers ≡ caller [] 0 [] ∷ [] }
    requires empty { callers.items ≡ [] }
    requires room { vec_len workers ≤ vec_capacity callers }
    ensures own { first.new.seat.table_id ≡ first.old.seat.table_id }
    ensures opening { first.new.seat.me.0.opening ≡ first.old.seat.me.0.opening }
    ensures split { first.new.seat.me.0.callers ≡ caller [] (vec_len workers) [] ∷ [] }
    ensures seated { AreSeated (λ port. port.pass.seat.table_id) (λ port. port.pass.seat.me.0) first.old.seat.table_id 0 workers.items
        result.items }
{
    for worker in workers {
        let pass = turn.pass(first);
        let port = TurnPort::new(rt, turn, pass);
        callers.push_reserved(Caller { port, worker });
    }
    callers
}

/// Takes the workers and the passes out of their ports.
pub(crate) fn rise_workers<D: Disk + Drop, N: Namer, R: Wait, T: Drop, C: Drop, G: Drop>(
    callers: Vec<StoreCaller<'_, D, N, R, T, C, G>>,
    mut workers: Vec<Worker<T, C, G>>,
    mut passes: Vec<StorePass<D, N>>,
) -> (Vec<Worker<T, C, G>>, Vec<StorePass<D, N>>)
    requires empty { (workers.items ≡ []) × (passes.items ≡ []) }
    requires room { (vec_len callers ≤ vec_capacity workers) × (vec_len callers ≤ vec_capacity passes) }
    ensures workers { result.0.items ≡ map (λ c. c.worker) callers.entry.items }
    ensures passes { result.1.items ≡ map (λ c. c.port.pass) callers.entry.items }
{
    for caller in callers {
        let Caller { port, worker } = caller;
        workers.push_reserved(worker);
        passes.push_reserved(port.into_pass());
    }
    (workers, passes)
}
