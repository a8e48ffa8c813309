//! What an opening commits: a Head of the next epoch and, of an index in the one file of older stores, the buckets in its place.

ghost use Rattle.std.specs.Prelude.{◌≡◌, ◌++◌, ◌∷◌, ◌<◌, [], false, IfOk, OnOk};
ghost use Rattle.pool_changes.specs.Kept.{slots_of, IsSame};
ghost use Rattle.pool_changes.specs.Indexed.{IsOf};
ghost use Rattle.office_catalog.specs.Changed.{after, IsFor};
ghost use Rattle.store_opening.specs.Next.{IsNext};

use crate::found::Found;
use intent_journal::Changes;
use office_catalog::CatalogChange;
use pool_changes::IndexChange;
use pool_name::Namer;
use std::alloc::{AllocError, Global};

/// The changes of the pool's index, and behind them those of Head.
fn both_changes(alloc: Global, pooled: Changes, heads: &Changes) -> Result<Changes, AllocError>
    ensures { IfOk result (λ changes. changes ≡ pooled ++ heads.now) }
{
    let mut changes = pooled;
    changes.push_copies(alloc, heads.as_slice())?;
    Ok(changes)
}

/// The next epoch of what was found, which isn't durable yet.
#[derive(Drop)]
pub(crate) struct NextEpoch {
    pub(crate) catalog: CatalogChange,
    pub(crate) index: IndexChange,
    pub(crate) changes: Changes,
}

/// The next epoch of what was found. No content comes to the index or leaves it: none of its files changes but those that an
/// index in one file leads to.
pub(crate) fn propose<N: Namer>(alloc: Global, found: &Found<N>) -> Result<NextEpoch, AllocError>
    requires { found.now.catalog.epoch < 18446744073709551615 }
    ensures { IfOk result (IsNext found.now.pool found.now.catalog) }
{
    let catalog = found.catalog.propose_epoch(alloc)?;
    let mut index = found.pool.settle(alloc, &[])?;
    let pooled = index.take_changes(alloc);
    let changes = both_changes(alloc, pooled, catalog.changes())?;
    Ok(NextEpoch {
        catalog,
        index,
        changes,
    })
}

/// Makes the next epoch of what was found, behind the commit; takes no memory.
pub(crate) fn accept<N: Namer>(found: &mut Found<N>, next: NextEpoch)
    requires fits { IsFor found.old.catalog next.catalog }
    requires index { IsOf next.index [] [] [] [] }
    ensures catalog { found.new.catalog ≡ after next.catalog found.old.catalog }
    ensures names { IsSame (slots_of found.old.pool.names) (slots_of found.new.pool.names) }
    ensures buckets { found.new.pool.in_one_file ≡ false }
    ensures counts { found.new.counts ≡ found.old.counts }
    ensures partials { found.new.partials ≡ found.old.partials }
{
    let NextEpoch {
        catalog,
        index,
        changes: _changes,
    } = next;
    found.catalog.accept(catalog);
    found.pool.accept(index);
}
