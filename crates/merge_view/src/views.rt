ghost use Rattle.std.specs.Prelude.{◌≡◌, ◌≢◌, ◌∷◌, ℕ, List, None, IfOk, IfSome};
ghost use Rattle.std.specs.List.{AllByRecursion};
ghost use Rattle.std.specs.Option.{option_copied};
ghost use Rattle.attr_records.specs.Paths.{path_cmp};
ghost use Rattle.ordered_lists.specs.Order.{IsInOrder};
ghost use Rattle.attr_records.specs.Trees.{node_at};
ghost use Rattle.merge_view.specs.Views.{Rows, IsWhole, laid, difference, upper, needed, view, reverse, stacked, trimmed};
ghost use Rattle.merge_view.specs.Tables.{whole, reverses, oldest};

use crate::merges::Merge;
use crate::merging::merge;
use crate::rules::{Difference, Laid, Needed, Upper};
use attr_records::PathName;
use attr_tables::{Record, Table, find};
use std::alloc::{AllocError, Global};

/// The tree that entries over a tree show, or want of memory: one pass over both.
#[tactic(auto, using(crate::proofs::Orders::orders))]
pub fn view(alloc: Global, tree: &Table, entries: &Table) -> Result<Table, AllocError>
    ensures value { IfOk result (λ seen. seen ≡ view tree.now entries.now) }
    ensures each { IfOk result (λ seen. (path : List ℕ) → node_at seen path ≡ laid (node_at entries.now path) (node_at tree.now path)) }
    ensures is_whole { IfOk result (λ seen. IsWhole tree.now → IsWhole seen) }
{
    let rows = merge::<Laid>(alloc, entries.rows(), tree.rows())?;
    Ok(Table::from_rows(rows))
}

/// What is stored of an older tree relative to a newer one, or want of memory: one pass over both. It has
/// exactly the paths where they differ, with the older's own node, or a deletion mark if it has none.
/// The newer tree, viewed through these entries, is the older one.
#[tactic(auto, using(crate::proofs::Orders::orders))]
pub fn reverse(alloc: Global, older: &Table, newer: &Table) -> Result<Table, AllocError>
    ensures value { IfOk result (λ entries. entries ≡ reverse older.now newer.now) }
    ensures each { IfOk result (λ entries. (path : List ℕ) → node_at entries path ≡ difference (node_at older.now path) (node_at newer.now path)) }
    ensures undone { IfOk result (λ entries. IsWhole older.now → view newer.now entries ≡ older.now) }
{
    let rows = merge::<Difference>(alloc, older.rows(), newer.rows())?;
    Ok(Table::from_rows(rows))
}

/// The entries of an older backup laid over those of a newer one, or want of memory: one pass over both. A
/// tree viewed through these entries is the tree viewed through the newer's and then through the older's.
#[tactic(auto, using(crate::proofs::Orders::orders))]
pub fn stacked(alloc: Global, older: &Table, newer: &Table) -> Result<Table, AllocError>
    ensures value { IfOk result (λ entries. entries ≡ stacked older.now newer.now) }
    ensures each { IfOk result (λ entries. (path : List ℕ) → node_at entries path ≡ upper (node_at older.now path) (node_at newer.now path)) }
    ensures seen { IfOk result (λ entries. (tree : Rows) → IsInOrder path_cmp tree → view tree entries ≡ view (view tree newer.now) older.now) }
{
    let rows = merge::<Upper>(alloc, older.rows(), newer.rows())?;
    Ok(Table::from_rows(rows))
}

/// The entries that change a tree, and no others, or want of memory: one pass over both. They are the reverse
/// entries of the view through all of them.
#[tactic(auto, using(crate::proofs::Orders::orders))]
pub fn trimmed(alloc: Global, tree: &Table, entries: &Table) -> Result<Table, AllocError>
    ensures value { IfOk result (λ kept. kept ≡ trimmed tree.now entries.now) }
    ensures each { IfOk result (λ kept. (path : List ℕ) → node_at kept path ≡ needed (node_at entries.now path) (node_at tree.now path)) }
    ensures reversed { IfOk result (λ kept. kept ≡ reverse (view tree.now entries.now) tree.now) }
{
    let rows = merge::<Needed>(alloc, entries.rows(), tree.rows())?;
    Ok(Table::from_rows(rows))
}

/// The tree that tables show, or want of memory: one pass over all of them, which copies each row of the tree once.
/// The first is that of a filled backup, and each next one holds the entries of the next older backup. If the tables
/// are what a list of trees is stored as, this is the last.
pub fn whole(alloc: Global, tables: &[Table]) -> Result<Table, AllocError>
    ensures value { IfOk result (λ tree. tree ≡ whole tables.now) }
    ensures is_whole { IfOk result (λ tree. IsWhole tree) }
    ensures stored { IfOk result (λ tree. (filled : Rows) (trees : List Rows) → IsWhole filled → AllByRecursion IsWhole trees
        → tables.now ≡ filled ∷ reverses filled trees → tree ≡ oldest filled trees) }
{
    let mut merge = Merge::new(alloc, tables)?;
    let mut rows = Vec::new(alloc);
    'given: while let Some(row) = merge.next() {
        rows.push(row.copy(alloc)?)?;
    }
    Ok(Table::from_rows(rows))
}

/// What an entry makes of what is there without it.
fn laid<'a>(entry: Option<&'a Record>, base: Option<&'a Record>) -> Option<&'a Record>
    ensures { option_copied result ≡ laid (option_copied entry.entry) (option_copied base.entry) }
{
    match entry {
        None => base,
        Some(found) => { if found.is_mark() { None } else { entry } }
    }
}

/// What is at a path of the tree that tables show, which is never a deletion mark: a search in each table,
/// and no memory. The first table is that of a filled backup, and each next one holds the entries of the next
/// older backup.
pub fn lookup<'a>(tables: &'a [Table], path: &PathName) -> Option<&'a Record>
    ensures value { option_copied result ≡ node_at (whole tables.now) path.now }
    ensures no_mark { IfSome result (λ found. found.now ≢ Record.Deleted) }
{
    let mut found = None;
    for table in tables {
        found = laid(find(table.rows(), path.as_slice()), found);
    }
    found
}
