//! A walk over backups from the newest to the oldest.

ghost use Rattle.std.specs.Prelude.{◌≡◌, ◌++◌, ◌+◌, ◌<◌, ◌≤◌, length, drop, IfOk, OnOk};
ghost use Rattle.std.specs.Option.{option_to_list};
ghost use Rattle.merge_view.specs.Tables.{AllInOrder};
ghost use Rattle.backup_delete.specs.Folds.{changes};
ghost use Rattle.backup_delete.specs.Walks.{IsNext};
ghost use Rattle.backup_delete.specs.Towers.{MayStand};

use crate::changes::TableChange;
use crate::numbers::{Gone, is_gone, needs_fold};
use crate::runs::folded_table;
use crate::tower::Tower;
use attr_tables::Table;
use backup_rules::Line;
use std::alloc::{AllocError, Global};

/// Goes on to the backup at an index: what becomes of its table, if something does; or want of memory. `next` is the
/// index of the oldest backup so far that stays, or the number of backups before there is one; the tower, if there is one,
/// hasn't gone on past it.
pub(crate) fn step(
    alloc: Global,
    lines: &[Line],
    tables: &[Table],
    numbers: &Gone,
    index: usize,
    next: &mut usize,
    tower: &mut Option<Tower>,
) -> Result<Option<TableChange>, AllocError>
    requires same { length tables.now ≡ length lines.now }
    requires order { AllInOrder tables.now }
    requires within { index < length lines.now }
    requires walk { IsNext numbers.now lines.now tables.now next.old (index + 1) }
    requires stands { MayStand lines.now tables.now next.old tower.old }
    ensures change { IfOk result (λ change. changes numbers.now (drop index lines.now) (drop index tables.now)
        ≡ changes numbers.now (drop (index + 1) lines.now) (drop (index + 1) tables.now) ++ option_to_list change) }
    ensures stands { OnOk result (MayStand lines.now tables.now next.new tower.new) }
    ensures walk { OnOk result (IsNext numbers.now lines.now tables.now next.new index) }
{
    let line = lines[index];
    if is_gone(numbers, line.number) {
        return Ok(Some(TableChange::new(line.number, None)));
    }
    let newer = *next;
    *next = index;
    let (_, newer_lines) = lines.split_at(index + 1);
    if !needs_fold(numbers, line, newer_lines) {
        return Ok(None);
    }
    let table = folded_table(alloc, lines, tables, index, newer, tower)?;
    Ok(Some(TableChange::new(line.number, Some(table))))
}
