//! The tables up to the next filled backup, laid over each other once for all runs of a deletion.
//!
//! They stand in blocks of neighbours. Of two blocks the farther one has at least twice as many backups, else they become
//! one: so there are no more blocks than the backups can be halved, and how often an entry is copied in the whole deletion
//! grows as that number.

ghost use Rattle.std.specs.Prelude.{◌≡◌, ◌-◌, ◌/◌, ◌<◌, ◌≤◌, ◌↔◌, true, ℕ, List, [], length, drop, Option, Some, IfOk, OnOk, IsTrue};
ghost use Rattle.std.specs.Option.{option_copied};
ghost use Rattle.attr_records.specs.Trees.{node_at};
ghost use Rattle.attr_tables.specs.declared.records.Record.{Record};
ghost use Rattle.backup_rules.specs.declared.lines.Line.{Line};
ghost use Rattle.merge_view.specs.Views.{Rows, laid};
ghost use Rattle.merge_view.specs.Tables.{AllInOrder};
ghost use Rattle.backup_delete.specs.Trees.{tree_of, is_first_filled};
ghost use Rattle.backup_delete.specs.Towers.{one_fold, folds, IsBlock, IsStack, IsBase, IsTower, HasReached, MayStand};

use crate::numbers::{Gone, is_gone, needs_fold};
use crate::trees::{first_filled, run_entries};
use attr_records::PathName;
use attr_tables::{Record, Table};
use backup_rules::Line;
use merge_view::stacked;
use std::alloc::{AllocError, Global};

/// The entries of the backups from an index up to another one, none of them filled, laid over each other.
#[derive(Debug, Drop)]
pub(crate) struct Block {
    pub(crate) start: usize,
    pub(crate) end: usize,
    pub(crate) entries: Table,
}

/// The tables from the backup at `start` up to that at `base`, which is filled or behind all others; the nearest block is the
/// last one.
#[derive(Debug, Drop)]
pub(crate) struct Tower {
    pub(crate) blocks: Vec<Block>,
    pub(crate) base: usize,
    pub(crate) start: usize,
}

/// One, if a backup stays and gets a new table.
fn one_fold(numbers: &Gone, line: Line, newer: &[Line]) -> usize
    ensures value { result ≡ one_fold numbers.now line newer.now }
    ensures few { result ≤ 1 }
{
    if is_gone(numbers, line.number) {
        return 0;
    }
    if needs_fold(numbers, line, newer) {
        return 1;
    }
    0
}

/// How many backups stay and get a new table.
pub(crate) fn count_folds(lines: &[Line], numbers: &Gone) -> usize
    ensures { result ≡ folds numbers.now lines.now }
{
    let mut count = 0;
    let mut rest = lines;
    'up: while let [line, newer @ ..] = rest {
        count += one_fold(numbers, *line, newer);
        rest = newer;
    }
    count
}

/// A tower that stands for no tables.
fn based(alloc: Global, base: usize) -> Tower
    ensures base { result.base ≡ base }
    ensures start { result.start ≡ base }
    ensures none { result.blocks.items ≡ [] }
{
    Tower {
        blocks: Vec::new(alloc),
        base,
        start: base,
    }
}

/// A tower behind all backups, if it pays: if more than one of them gets a new table.
pub(crate) fn begun(alloc: Global, lines: &[Line], numbers: &Gone) -> Option<Tower>
    ensures { (tables : List Rows) → MayStand lines.now tables (length lines.now) result }
{
    if count_folds(lines, numbers) < 2 {
        return None;
    }
    Some(based(alloc, lines.len()))
}

/// A block and the next farther one, laid over each other; or want of memory.
fn joined(alloc: Global, nearer: &Block, farther: &Block) -> Result<Block, AllocError>
    ensures start { IfOk result (λ block. block.start ≡ nearer.now.start) }
    ensures one { IfOk result (λ block. (lines : List Line) (tables : List Rows) (end : ℕ) → AllInOrder tables
        → IsBlock lines tables farther.now.start nearer.now → IsBlock lines tables end farther.now → IsBlock lines tables end block) }
{
    let entries = stacked(alloc, &nearer.entries, &farther.entries)?;
    Ok(Block {
        start: nearer.start,
        end: farther.end,
        entries,
    })
}

/// Whether a block has more than half as many backups as the next farther one.
fn is_half(nearer: &Block, farther: &Block) -> bool
    ensures { IsTrue result ↔ ((farther.now.end - farther.now.start) / 2 < nearer.now.end - nearer.now.start) }
{
    farther.end.saturating_sub(farther.start) / 2 < nearer.end.saturating_sub(nearer.start)
}

/// Puts a block before others, and makes it one with the nearest of them while that one doesn't have twice as many backups;
/// or want of memory.
fn push(alloc: Global, blocks: &mut Vec<Block>, block: Block) -> Result<(), AllocError>
    ensures { OnOk result ((lines : List Line) (tables : List Rows) (base : ℕ) (end : ℕ) → AllInOrder tables
        → IsStack lines tables base blocks.old.items end → IsBlock lines tables end block
        → IsStack lines tables base blocks.new.items block.start) }
{
    match blocks.pop() {
        None => Ok(blocks.push(block)?),
        Some(other) => {
            if is_half(&block, &other) {
                let both = joined(alloc, &block, &other)?;
                push(alloc, blocks, both)?;
                return Ok(());
            }
            blocks.push(other)?;
            Ok(blocks.push(block)?)
        }
    }
}

/// The tower begins anew at a filled backup, if there is one before its start.
fn begin_anew(alloc: Global, tower: &mut Tower, filled: usize)
    ensures start { filled ≤ tower.old.start → tower.new.start ≡ filled }
    ensures stands { (lines : List Line) (tables : List Rows) → filled ≤ tower.old.start → tower.old.start ≤ length lines
        → (filled < tower.old.start → is_first_filled (drop filled lines) ≡ true)
        → IsTower lines tables tower.old.start tower.old → IsTower lines tables filled tower.new }
{
    if tower.start <= filled {
        return;
    }
    *tower = based(alloc, filled);
}

/// The tower goes on to an older backup: by a block of the tables from there up to the first filled one before its start, or
/// up to that; or want of memory.
pub(crate) fn go_on(
    alloc: Global,
    lines: &[Line],
    tables: &[Table],
    index: usize,
    tower: &mut Tower,
) -> Result<(), AllocError>
    requires same { length tables.now ≡ length lines.now }
    requires order { AllInOrder tables.now }
    requires reached { HasReached lines.now tables.now index tower.old }
    ensures start { OnOk result (tower.new.start ≡ index) }
    ensures stands { OnOk result (IsTower lines.now tables.now tower.new.start tower.new) }
{
    let filled = first_filled(lines, index, tower.start);
    begin_anew(alloc, tower, filled);
    if index == filled {
        return Ok(());
    }
    let entries = run_entries(alloc, lines, tables, index, filled)?;
    let block = Block {
        start: index,
        end: filled,
        entries,
    };
    push(alloc, &mut tower.blocks, block)?;
    tower.start = index;
    Ok(())
}

/// What the tree from which blocks start has at a path.
fn node_in<'a>(
    lines: &[Line],
    tables: &'a [Table],
    base: usize,
    blocks: &'a [Block],
    path: &PathName,
) -> Option<&'a Record>
    requires same { length tables.now ≡ length lines.now }
    requires order { AllInOrder tables.now }
    requires based { IsBase lines.now base }
    ensures { (start : ℕ) → IsStack lines.now tables.now base blocks.now start
        → option_copied result ≡ node_at (tree_of (drop start lines.now) (drop start tables.now)) path.now }
{
    match blocks {
        [] => {
            if base == lines.len() {
                return None;
            }
            tables[base].find(path)
        }
        [farther @ .., block] => {
            let _rows = block.entries.rows();
            match block.entries.find(path) {
                None => node_in(lines, tables, base, farther, path),
                Some(found) => unmarked(found),
            }
        }
    }
}

/// The record, if it is no deletion mark.
fn unmarked<'a>(found: &'a Record) -> Option<&'a Record>
    ensures { (base : Option Record) → option_copied result ≡ laid (Some found.now) base }
{
    match found {
        Record::Deleted => None,
        Record::File(_) => Some(found),
        Record::Dir(_) => Some(found),
        Record::Link(_) => Some(found),
    }
}

/// What the tree of the backup at a tower's start has at a path.
pub(crate) fn find_in<'a>(
    lines: &[Line],
    tables: &'a [Table],
    tower: &'a Tower,
    path: &PathName,
) -> Option<&'a Record>
    requires same { length tables.now ≡ length lines.now }
    requires order { AllInOrder tables.now }
    requires stands { IsTower lines.now tables.now tower.now.start tower.now }
    ensures { option_copied result ≡ node_at (tree_of (drop tower.now.start lines.now) (drop tower.now.start tables.now)) path.now }
{
    node_in(lines, tables, tower.base, tower.blocks.as_slice(), path)
}
