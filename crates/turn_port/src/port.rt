//! A caller's port to a locked store.

ghost use Rattle.std.specs.Prelude.{◌≡◌};

use crate::locked::{LockedStore, StorePass, StoreTurn};
use atomic_table::TableRule;
use disk_trait::Disk;
use office_model::{Answer, Event, Port, Refusal};
use pool_name::Namer;
use std::alloc::Global;
use std::snapshot::Snapshot;
use std::sync::Wait;
use turn_lock::{BetweenCalls, Held, Resting, RestingSeat, TicketLock, TicketRule, View};

/// A lock, and a pass of it.
#[derive(Drop)]
pub struct LockCaller<'a, S: Drop, V, K, P: TableRule<S, V, K>, L: Resting<V>, R: Wait> {
    rt: &'a R,
    turn: &'a TicketLock<S, V, K, P>,
    pass: RestingSeat<S, V, L>,
    pub ghost own: { pass.seat.table_id ≡ turn.now.table.shared.table_id },
}

/// A caller of a locked store. Each call is one turn; between calls it has neither a ticket nor the turn.
pub type TurnPort<'a, D, N, R> = LockCaller<
    'a,
    Held<LockedStore<D, N>, Event, Result<Answer, Refusal>>,
    View<LockedStore<D, N>, Event, Result<Answer, Refusal>>,
    Snapshot<LockedStore<D, N>>,
    TicketRule<LockedStore<D, N>>,
    BetweenCalls,
    R,
>;

impl<'a, D: Disk + Drop, N: Namer, R: Wait> TurnPort<'a, D, N, R> {
    pub fn new(rt: &'a R, turn: &'a StoreTurn<D, N>, pass: StorePass<D, N>) -> TurnPort<'a, D, N, R>
        requires own { pass.seat.table_id ≡ turn.now.table.shared.table_id }
        ensures { result.pass ≡ pass }
    {
        LockCaller { rt, turn, pass }
    }

    /// Gives up the port.
    pub fn into_pass(self) -> StorePass<D, N>
        ensures { result ≡ self.entry.pass }
    {
        let LockCaller {
            rt: _,
            turn: _,
            pass,
        } = self;
        pass
    }
}

impl<'a, D: Disk + Drop, N: Namer, R: Wait> Port for TurnPort<'a, D, N, R> {
    ghost use Rattle.turn_port.specs.Asks.{Passes};
    ghost use Rattle.turn_port.specs.AsksLaws.{Passes-none, Passes-append};
    ghost use Rattle.turn_port.specs.Comes.{Stands};

    // the pass is of the same lock, and made these calls
    ghost moves = { λ p calls q. Passes Stands p.pass.seat.table_id p.pass.seat.me.0 calls q.pass.seat.table_id q.pass.seat.me.0 };

    /// The store takes its memory where it did when it was locked.
    fn call(&mut self, _alloc: Global, event: &Event) -> Result<Answer, Refusal> {
        self.turn.call(self.rt, &mut self.pass, event)
    }

    ghost none = { λ p. Passes-none Stands p.pass.seat.table_id p.pass.seat.me.0 };

    ghost joined = { λ p q r xs ys a b. Passes-append Stands p.pass.seat.table_id q.pass.seat.table_id r.pass.seat.table_id
        p.pass.seat.me.0 q.pass.seat.me.0 r.pass.seat.me.0 xs ys a b };
}
