//! What the pool's index gets if rows are stored.

ghost use Rattle.std.specs.Prelude.{[], IfOk};
ghost use Rattle.pool_changes.specs.Indexed.{IsOf, after as relisted_after};
ghost use Rattle.pool_changes.specs.Kept.{slots_of};
ghost use Rattle.pool_changes.specs.Listed.{index_of};
ghost use Rattle.pool_changes.specs.Written.{LeadsIndex};
ghost use Rattle.store_commits.specs.Ids.{given_in};

use crate::ids::ids_of;
use attr_tables::Table;
use pool_changes::IndexChange;
use pool_name::Namer;
use pool_store::Pool;
use std::alloc::{AllocError, Global};

/// The change of the pool's index by which it has the contents that rows name, unmarked; or want of memory. Nothing changes.
pub fn settle_rows<N: Namer>(
    alloc: Global,
    pool: &Pool<N>,
    rows: &Table,
) -> Result<IndexChange, AllocError>
    ensures added { IfOk result (λ index. IsOf index (given_in (slots_of pool.now.names) rows.now) [] [] []) }
    ensures leads { IfOk result (λ index. LeadsIndex pool.now.in_one_file (index_of (slots_of pool.now.names))
        (index_of (relisted_after index (slots_of pool.now.names))) index.changes) }
{
    let ids = ids_of(alloc, pool, rows.rows())?;
    let index = pool.settle(alloc, &ids)?;
    Ok(index)
}
