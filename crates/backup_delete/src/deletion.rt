//! The deletion of backups of a host.

ghost use Rattle.std.specs.Prelude.{◌≡◌, ◌+◌, ◌<◌, ◌^◌, ◌||◌, List, [], ◌∷◌, ℕ, length, IfOk, OnOk, if◌then◌else◌};
ghost use Rattle.disk_trait.specs.declared.ids.PoolId.{PoolId};
ghost use Rattle.merge_view.specs.Views.{Rows};
ghost use Rattle.merge_view.specs.Tables.{AllInOrder};
ghost use Rattle.stored_trees.specs.Occurrences.{occurrences};
ghost use Rattle.ref_counts.specs.Numbers.{number, total, capped};
ghost use Rattle.ref_counts.specs.Stored.{stored, AreWhole};
ghost use Rattle.backup_index.specs.Lines.{IsSound};
ghost use Rattle.backup_delete.specs.Trees.{backups, is_gone, needs_fold};
ghost use Rattle.backup_delete.specs.Folds.{left_lines, left_trees, folded_tables, changes, change_at, changed, table_at, added_tables, taken_tables};

use crate::changes::{TableChange, changes};
use crate::lines::left_lines;
use crate::numbers::{Gone, is_gone, needs_fold, sorted_numbers};
use attr_tables::Table;
use backup_index::LineList;
use backup_rules::Line;
use ref_counts::{Counts, Tally};
use std::alloc::{AllocError, Global};

/// What a deletion makes of a host's backups.
#[derive(Drop)]
pub struct Folded {
    /// The lines that are left.
    pub lines: LineList,
    /// The tables that change, the newest first.
    pub tables: Vec<TableChange>,
    /// How often the tables that are written name each id.
    pub added: Counts,
    /// How often the tables that are removed or replaced name each id.
    pub taken: Counts,
}

/// Counts a table that is written.
fn count_added(tally: &mut Tally, change: &TableChange) -> Result<(), AllocError>
    ensures { OnOk result ((id : PoolId) (n : ℕ) → number tally.old id ≡ capped n
        → number tally.new id ≡ capped (n + total id (added_tables (change.now ∷ [])))) }
{
    match change.table() {
        None => Ok(()),
        Some(table) => {
            tally.count(table)?;
            Ok(())
        }
    }
}

/// How often the tables that are written name each id, or want of memory.
fn added_counts(alloc: Global, all: &[TableChange]) -> Result<Counts, AllocError>
    ensures { IfOk result (λ counts. (id : PoolId) → number counts id ≡ capped (total id (added_tables all.now))) }
{
    let mut tally = Tally::new(alloc);
    for change in all {
        count_added(&mut tally, change)?;
    }
    let counts = tally.counts(alloc)?;
    Ok(counts)
}

/// Counts the table of a backup, if it is removed or replaced.
fn count_taken(
    tally: &mut Tally,
    numbers: &Gone,
    line: Line,
    table: &Table,
    newer: &[Line],
) -> Result<(), AllocError>
    ensures { OnOk result ((id : PoolId) (n : ℕ) → number tally.old id ≡ capped n
        → number tally.new id ≡ capped (if is_gone numbers.now line.number || needs_fold numbers.now line newer.now then n + occurrences id table.now else n)) }
{
    if is_gone(numbers, line.number) || needs_fold(numbers, line, newer) {
        tally.count(table)
    } else {
        Ok(())
    }
}

/// How often the tables that are removed or replaced name each id, or want of memory.
fn taken_counts(
    alloc: Global,
    lines: &[Line],
    tables: &[Table],
    numbers: &Gone,
) -> Result<Counts, AllocError>
    requires { length tables.now ≡ length lines.now }
    ensures { IfOk result (λ counts. (id : PoolId) → number counts id ≡ capped (total id (taken_tables numbers.now lines.now tables.now))) }
{
    let mut tally = Tally::new(alloc);
    let mut index = lines.len();
    'down: while index > 0 {
        index -= 1;
        let (_, newer) = lines.split_at(index + 1);
        count_taken(&mut tally, numbers, lines[index], &tables[index], newer)?;
    }
    let counts = tally.counts(alloc)?;
    Ok(counts)
}

/// Each table is in order.
fn in_order(tables: &[Table])
    ensures { AllInOrder tables.now }
{
    for table in tables {
        let _rows = table.rows();
    }
}

/// What becomes of a host's backups, the oldest first, without those of some numbers; or want of memory. If the tables
/// are what backups are stored as, the tables after it are what those that are left are stored as, the newest of them
/// filled; and its two counts are by how much the numbers of ids change, if the tables name none 2^64 times.
pub fn fold(
    alloc: Global,
    lines: &[Line],
    tables: &[Table],
    numbers: &[u32],
) -> Result<Folded, AllocError>
    requires { length tables.now ≡ length lines.now }
    ensures lines { IfOk result (λ folded. folded.lines ≡ left_lines numbers.now lines.now) }
    ensures tables { IfOk result (λ folded. folded.tables.items ≡ changes numbers.now lines.now tables.now) }
    ensures stored { IfOk result (λ folded. (trees : List Rows) → length trees ≡ length lines.now → AreWhole (backups lines.now trees)
        → tables.now ≡ stored (backups lines.now trees)
        → folded_tables numbers.now lines.now tables.now ≡ stored (backups folded.lines (left_trees numbers.now lines.now trees))) }
    ensures files { IfOk result (λ folded. (next : ℕ) → IsSound next lines.now → (number : ℕ)
        → changed (change_at folded.tables.items number) (table_at lines.now tables.now number)
        ≡ table_at folded.lines (folded_tables numbers.now lines.now tables.now) number) }
    ensures sound { IfOk result (λ folded. (next : ℕ) → IsSound next lines.now → IsSound next folded.lines) }
    ensures added { IfOk result (λ folded. (id : PoolId) → number folded.added id ≡ capped (total id (added_tables folded.tables.items))) }
    ensures taken { IfOk result (λ folded. (id : PoolId) → number folded.taken id ≡ capped (total id (taken_tables numbers.now lines.now tables.now))) }
    ensures counted { IfOk result (λ folded. (id : PoolId) → total id tables.now < 2 ^ 64
        → total id (folded_tables numbers.now lines.now tables.now) + number folded.taken id ≡ total id tables.now + number folded.added id) }
{
    in_order(tables);
    let sorted = sorted_numbers(alloc, numbers)?;
    let gone = Gone { numbers, sorted };
    let all = changes(alloc, lines, tables, &gone)?;
    let added = added_counts(alloc, all.as_slice())?;
    let taken = taken_counts(alloc, lines, tables, &gone)?;
    let left = left_lines(alloc, lines, &gone)?;
    Ok(Folded {
        lines: left,
        tables: all,
        added,
        taken,
    })
}
