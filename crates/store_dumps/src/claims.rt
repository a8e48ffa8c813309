//! Claims are let go, and taken, one for each row that names a content. None of it takes memory but what `reserve` of the pool
//! made sure of.

ghost use Rattle.std.specs.Prelude.{◌≡◌, ◌+◌, ◌<◌, ◌≤◌, ℕ, true, length, OnOk, OnErr, if◌then◌else◌};
ghost use Rattle.disk_trait.specs.declared.ids.PoolId.{PoolId};
ghost use Rattle.attr_tables.specs.Records.{is_same_id};
ghost use Rattle.stored_trees.specs.Occurrences.{occurrences};
ghost use Rattle.pool_changes.specs.Kept.{slots_of, IsSame};
ghost use Rattle.pool_changes.specs.Slots.{is_given, claims_of};
ghost use Rattle.open_sessions.specs.Opened.{claims_of_dump};
ghost use Rattle.open_sessions.specs.SessionLaws.{node_occurrences};
ghost use Rattle.store_dumps.specs.Claims.{LetsGo, Gains, claims_of_content};

use attr_tables::{Record, Row};
use disk_trait::PoolId;
use open_sessions::OpenDump;
use pool_name::Namer;
use pool_store::{Pool, Slot};
use std::alloc::{AllocError, Global};

/// How many claims a name has.
fn claims<N: Namer>(pool: &Pool<N>, id: PoolId) -> u64
    ensures { result ≡ claims_of (slots_of pool.now.names id) }
{
    match pool.slot(id) {
        Some(Slot::Live { claims, .. }) => claims,
        Some(Slot::Staged { claims, .. }) => claims,
        Some(Slot::Doomed) => 0,
        None => 0,
    }
}

/// Lets go a claim on a content, if there is one.
fn release_id<N: Namer>(pool: &mut Pool<N>, id: PoolId)
    ensures go { 0 < claims_of (slots_of pool.old.names id)
        → LetsGo (λ other. if is_same_id id other then 1 else 0) (slots_of pool.old.names) (slots_of pool.new.names) }
    ensures form { pool.new.in_one_file ≡ pool.old.in_one_file }
{
    if claims(pool, id) > 0 {
        pool.release(id);
    }
}

/// Lets go a claim on a content, if one is named.
pub fn release<N: Namer>(pool: &mut Pool<N>, content: Option<PoolId>)
    ensures go { ((id : PoolId) → claims_of_content content id ≤ claims_of (slots_of pool.old.names id))
        → LetsGo (λ id. claims_of_content content id) (slots_of pool.old.names) (slots_of pool.new.names) }
    ensures form { pool.new.in_one_file ≡ pool.old.in_one_file }
{
    match content {
        Some(id) => release_id(pool, id),
        None => {}
    }
}

/// Lets go the claim on the content that a node names, if it names one.
fn release_node<N: Namer>(pool: &mut Pool<N>, node: &Record)
    ensures go { ((id : PoolId) → node_occurrences id node.now ≤ claims_of (slots_of pool.old.names id))
        → LetsGo (λ id. node_occurrences id node.now) (slots_of pool.old.names) (slots_of pool.new.names) }
    ensures form { pool.new.in_one_file ≡ pool.old.in_one_file }
{
    match node {
        Record::File(file) => release(pool, file.content),
        Record::Dir(_) => {}
        Record::Link(_) => {}
        Record::Deleted => {}
    }
}

/// Lets go a claim for each row that names a content.
pub fn release_rows<N: Namer>(pool: &mut Pool<N>, rows: &[Row])
    ensures go { ((id : PoolId) → occurrences id rows.now ≤ claims_of (slots_of pool.old.names id))
        → LetsGo (λ id. occurrences id rows.now) (slots_of pool.old.names) (slots_of pool.new.names) }
    ensures form { pool.new.in_one_file ≡ pool.old.in_one_file }
{
    for row in rows {
        release_node(pool, row.node());
    }
}

/// Lets go the claims of a dump's tree and of its base; or says that memory is wanting, with nothing changed.
pub(crate) fn release_dump<N: Namer>(
    pool: &mut Pool<N>,
    alloc: Global,
    dump: &OpenDump,
) -> Result<(), AllocError>
    ensures go { OnOk result (((id : PoolId) → claims_of_dump dump.now id ≤ claims_of (slots_of pool.old.names id))
        → LetsGo (λ id. claims_of_dump dump.now id) (slots_of pool.old.names) (slots_of pool.new.names)) }
    ensures err { OnErr result (pool.new ≡ pool.old) }
    ensures form { pool.new.in_one_file ≡ pool.old.in_one_file }
{
    let tree = dump.tree.tree(alloc)?;
    release_rows(pool, tree.rows());
    release_rows(pool, dump.base.rows());
    Ok(())
}

/// Claims a content, if its name is live or staged.
pub fn claim_id<N: Namer>(pool: &mut Pool<N>, id: PoolId)
    requires { 0 < pool.old.spare }
    ensures gains { is_given (slots_of pool.old.names id) ≡ true
        → Gains (λ other. if is_same_id id other then 1 else 0) (slots_of pool.old.names) (slots_of pool.new.names) }
    ensures spare { pool.old.spare ≤ pool.new.spare + 1 }
    ensures form { pool.new.in_one_file ≡ pool.old.in_one_file }
{
    if pool.has(id) {
        pool.claim(id);
    }
}

/// Claims the content that a node names, if it names one.
fn claim_node<N: Namer>(pool: &mut Pool<N>, node: &Record)
    requires { 0 < pool.old.spare }
    ensures gains { ((id : PoolId) → 0 < node_occurrences id node.now → is_given (slots_of pool.old.names id) ≡ true)
        → Gains (λ id. node_occurrences id node.now) (slots_of pool.old.names) (slots_of pool.new.names) }
    ensures spare { pool.old.spare ≤ pool.new.spare + 1 }
    ensures form { pool.new.in_one_file ≡ pool.old.in_one_file }
{
    match node {
        Record::File(file) => match file.content {
            Some(id) => claim_id(pool, id),
            None => {}
        },
        Record::Dir(_) => {}
        Record::Link(_) => {}
        Record::Deleted => {}
    }
}

/// Claims the content of each row that names one; as many claims must have been made sure of.
pub fn claim_rows<N: Namer>(pool: &mut Pool<N>, rows: &[Row])
    requires { length rows.now ≤ pool.old.spare }
    ensures gains { ((id : PoolId) → 0 < occurrences id rows.now → is_given (slots_of pool.old.names id) ≡ true)
        → Gains (λ id. occurrences id rows.now) (slots_of pool.old.names) (slots_of pool.new.names) }
    ensures spare { pool.old.spare ≤ pool.new.spare + length rows.now }
    ensures form { pool.new.in_one_file ≡ pool.old.in_one_file }
{
    for row in rows {
        claim_node(pool, row.node());
    }
}

/// Makes sure of a claim for each row of a dump's tree, and one for each of its base; or says that memory is wanting.
pub(crate) fn reserve_dump<N: Namer>(
    pool: &mut Pool<N>,
    tree: &[Row],
    base: &[Row],
) -> Result<(), AllocError>
    ensures ok { OnOk result (length tree.now + length base.now ≤ pool.new.spare) }
    ensures same { IsSame (slots_of pool.old.names) (slots_of pool.new.names) }
    ensures form { pool.new.in_one_file ≡ pool.old.in_one_file }
{
    match tree.len().checked_add(base.len()) {
        Some(claims) => pool.reserve(claims),
        None => Err(AllocError),
    }
}

/// Claims the contents that the rows of a dump's tree name, and those of its base; as many claims must have been made sure of.
pub(crate) fn claim_dump<N: Namer>(pool: &mut Pool<N>, tree: &[Row], base: &[Row])
    requires { length tree.now + length base.now ≤ pool.old.spare }
    ensures gains { ((id : PoolId) → 0 < occurrences id tree.now + occurrences id base.now → is_given (slots_of pool.old.names id) ≡ true)
        → Gains (λ id. occurrences id tree.now + occurrences id base.now) (slots_of pool.old.names) (slots_of pool.new.names) }
    ensures form { pool.new.in_one_file ≡ pool.old.in_one_file }
{
    claim_rows(pool, tree);
    claim_rows(pool, base);
}
