//! The contents that the pool's index lists if rows are stored.

ghost use Rattle.std.specs.Prelude.{◌≡◌, IfOk};
ghost use Rattle.pool_changes.specs.Kept.{slots_of};
ghost use Rattle.stored_trees.specs.Resolved.{content_in};
ghost use Rattle.store_commits.specs.Ids.{given_id, given_in};

use attr_tables::{Record, Row};
use disk_trait::PoolId;
use pool_name::Namer;
use pool_store::Pool;
use std::alloc::{AllocError, Global};

/// The content that a record names, if it names one.
fn content_of(node: &Record) -> Option<PoolId>
    ensures { result ≡ content_in node.now }
{
    match node {
        Record::File(file) => file.content,
        Record::Dir(_) => None,
        Record::Link(_) => None,
        Record::Deleted => None,
    }
}

/// The content that a record names, if it names one that is live or staged.
fn given_of<N: Namer>(pool: &Pool<N>, node: &Record) -> Option<PoolId>
    ensures { result ≡ given_id (slots_of pool.now.names) (content_in node.now) }
{
    match content_of(node) {
        Some(id) if pool.has(id) => Some(id),
        _ => None,
    }
}

/// The contents that rows name and that are live or staged, as often as they are named, in the order of the rows. Of a store at
/// work they are all that the rows of an open dump name.
pub fn ids_of<N: Namer>(
    alloc: Global,
    pool: &Pool<N>,
    rows: &[Row],
) -> Result<Vec<PoolId>, AllocError>
    ensures { IfOk result (λ ids. ids.items ≡ given_in (slots_of pool.now.names) rows.now) }
{
    let mut ids = Vec::new(alloc);
    for row in rows {
        match given_of(pool, row.node()) {
            Some(id) => ids.push(id)?,
            None => {}
        }
    }
    Ok(ids)
}
