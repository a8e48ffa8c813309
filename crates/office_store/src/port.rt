//! A store as a port of one caller.

ghost use Rattle.std.specs.Prelude.{◌≡◌};

use crate::store::Store;
use disk_trait::Disk;
use office_model::{Answer, Event, Port, Refusal};
use pool_name::Namer;
use std::alloc::Global;

/// A store as a port of one caller: each call is one event, and the calls that were made are those of a legal history.
#[derive(Drop)]
pub struct DirectPort<D: Disk, N: Namer> {
    store: Store<D, N>,
}

impl<D: Disk, N: Namer> DirectPort<D, N> {
    pub fn new(store: Store<D, N>) -> DirectPort<D, N>
        ensures { result.store ≡ store }
    {
        DirectPort { store }
    }

    pub fn into_store(self) -> Store<D, N>
        ensures { result ≡ self.store }
    {
        let DirectPort { store } = self;
        store
    }
}

impl<D: Disk, N: Namer> Port for DirectPort<D, N> {
    ghost use Rattle.office_store.specs.Moves.{Moves};
    ghost use Rattle.office_store.specs.MovesLaws.{Moves-none, Moves-append};

    ghost moves = { λ p calls q. Moves p.store calls q.store };

    fn call(&mut self, alloc: Global, event: &Event) -> Result<Answer, Refusal> {
        self.store.apply(alloc, event)
    }

    ghost none = { λ p. Moves-none p.store };

    ghost joined = { λ p q r xs ys a b. Moves-append p.store q.store r.store xs ys a b };
}
