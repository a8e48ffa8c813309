//! A store under a lock.

ghost use Rattle.std.specs.Prelude.{◌≡◌, All, map, IfOk, IfErr};
ghost use Rattle.turn_port.specs.Comes.{IsOpening, ComesOfAll};

use disk_trait::Disk;
use office_model::{Answer, Event, Refusal};
use office_store::Store;
use pool_name::Namer;
use std::alloc::{AllocFailed, Global};
use std::sync::Wait;
use turn_lock::{Object, Pass, Turn};

/// A store, and where it takes its memory.
#[derive(Drop)]
pub struct LockedStore<D: Disk, N: Namer> {
    store: Store<D, N>,
    alloc: Global,
}

/// The lock round a store.
pub type StoreTurn<D, N> = Turn<LockedStore<D, N>>;

/// A caller's token.
pub type StorePass<D, N> = Pass<LockedStore<D, N>>;

impl<D: Disk + Drop, N: Namer> Object for LockedStore<D, N> {
    ghost use Rattle.turn_port.specs.Comes.{Stands};
    ghost use Rattle.turn_port.specs.ComesLaws.{Comes-none};

    type Ask = Event;

    type Answer = Result<Answer, Refusal>;

    // the store came from the opening's by the calls of the history
    ghost stands = { Stands };

    ghost begins = { λ object. Comes-none object.store };

    fn act(&mut self, ask: &Event) -> Result<Answer, Refusal> {
        self.store.apply(self.alloc, ask)
    }
}

/// Locks a store, and gives the first pass, which has seen no calls. Without memory the store comes back.
pub fn lock_store<D: Disk + Drop, N: Namer>(
    alloc: Global,
    store: Store<D, N>,
) -> Result<(StoreTurn<D, N>, StorePass<D, N>), AllocFailed<Store<D, N>>>
    ensures own { IfOk result (λ t. t.1.seat.table_id ≡ t.0.table.shared.table_id) }
    ensures opening { IfOk result (λ t. IsOpening store t.1.seat.me.0) }
    ensures err { IfErr result (λ failed. failed.value ≡ store) }
{
    match Turn::new(alloc, LockedStore { store, alloc }) {
        Ok(made) => Ok(made),
        Err(failed) => {
            let LockedStore { store, alloc: _ } = failed.value;
            Err(AllocFailed { value: store })
        }
    }
}

/// Ends the lock and gives the store back, which came from the one that was locked by one legal history of all calls. In it
/// each of these passes' callers has its calls, in their order; if the first pass and every pass split from it, directly or
/// through others, are among these or were met by one of them, it has no other calls. It waits for its turn as a call does.
pub fn close_store<D: Disk + Drop, N: Namer, R: Wait>(
    rt: &R,
    turn: StoreTurn<D, N>,
    pass: StorePass<D, N>,
    others: Vec<StorePass<D, N>>,
) -> Store<D, N>
    requires own { pass.seat.table_id ≡ turn.table.shared.table_id }
    requires others { All (λ p. p.seat.table_id ≡ turn.table.shared.table_id) others.items }
    ensures all { ComesOfAll pass.seat.me.0 (map (λ p. p.seat.me.0) others.items) result }
{
    let LockedStore { store, alloc: _ } = turn.close(rt, pass, others);
    store
}
