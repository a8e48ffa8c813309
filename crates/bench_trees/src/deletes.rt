//! The tree of the oldest of many backups, and the deletion of one of them, of ten neighbours and of ten that stand apart, beside
//! reading the tables of all; and the same tree and the deletion of every second of them, beside reading tables that have few paths each.

use crate::corpus::{file_path, file_record};
use crate::fault::Fault;
use crate::report::Report;
use crate::sizes::FoldSizes;
use attr_tables::{Row, Table, read_table, write_table};
use backup_delete::{Folded, TableChange, fold};
use backup_rules::{Kind, Line};
use merge_view::whole;
use std::alloc::Global;

/// The files of a folder.
const FILES: u32 = 100;

/// Appends the files of a folder, which are others in each backup.
fn push_files(alloc: Global, table: &mut Table, folder: u32, backup: u32) -> Result<(), Fault> {
    for file in 0..FILES {
        let number = folder.wrapping_mul(FILES).wrapping_add(file);
        let path = file_path(alloc, folder, file)?;
        table.push(Row::new(
            path,
            file_record(backup.wrapping_mul(7_919).wrapping_add(number)),
        ))?;
    }
    Ok(())
}

/// The table of a backup in which each file of one of `share` folders is another than in the next newer one.
fn build(alloc: Global, folders: u32, backup: u32, share: u32) -> Result<Table, Fault> {
    let mut table = Table::new(alloc);
    for folder in 0..folders {
        if folder.checked_rem(share) == backup.checked_rem(share) {
            push_files(alloc, &mut table, folder, backup)?;
        }
    }
    Ok(table)
}

/// A table as it is read from its file, and the microseconds that this took.
fn read_back(report: &Report, table: &Table) -> Result<(Table, u64), Fault> {
    let file = write_table(report.alloc(), table)?;
    let begin = report.begin()?;
    let read = read_table(report.alloc(), file.as_slice())?;
    let micros = report.micros_since(begin)?;
    Ok((read.table, micros))
}

/// The tables of backups, the oldest first, each of one of `share` folders but the newest, which is of all; and the microseconds
/// that reading them took.
fn read_tables(report: &Report, sizes: FoldSizes, share: u32) -> Result<(Vec<Table>, u64), Fault> {
    let mut tables = Vec::new(report.alloc());
    let mut total = 0u64;
    for backup in 0..sizes.backups {
        let is_newest = backup.wrapping_add(1) == sizes.backups;
        let own = if is_newest { 1 } else { share };
        let made = build(report.alloc(), sizes.folders, backup, own)?;
        let (table, micros) = read_back(report, &made)?;
        tables.push(table)?;
        total = total.wrapping_add(micros);
    }
    Ok((tables, total))
}

/// The lines of backups, of which the newest alone is filled.
fn lines_of(alloc: Global, backups: u32) -> Result<Vec<Line>, Fault> {
    let mut lines = Vec::new(alloc);
    for number in 0..backups {
        lines.push(Line {
            number,
            start: 1,
            end: 2,
            kind: Kind::Incr,
            filled: number.wrapping_add(1) == backups,
            keep: false,
        })?;
    }
    Ok(lines)
}

/// How many entries the tables that are written have.
fn count_written(changes: &[TableChange]) -> usize {
    let mut rows = 0usize;
    for change in changes {
        if let Some(table) = change.table() {
            rows = rows.wrapping_add(table.len());
        }
    }
    rows
}

/// This many numbers of backups from 1 on, with this step from one to the next, or as many as there are before the newest.
fn numbers_by(alloc: Global, count: u32, step: u32, backups: u32) -> Result<Vec<u32>, Fault> {
    let mut numbers = Vec::new(alloc);
    for turn in 0..count {
        let number = turn.saturating_mul(step).saturating_add(1);
        if number.saturating_add(1) < backups {
            numbers.push(number)?;
        }
    }
    Ok(numbers)
}

/// Folds the backups without these numbers.
fn fold_without(
    alloc: Global,
    lines: &[Line],
    tables: &[Table],
    numbers: &[u32],
) -> Result<Folded, Fault> {
    if lines.len() != tables.len() {
        return Err(Fault::Words);
    }
    Ok(fold(alloc, lines, tables, numbers)?)
}

/// Deletes the backups of these numbers.
fn delete(
    report: &Report,
    what: &'static str,
    lines: &[Line],
    tables: &[Table],
    numbers: &[u32],
) -> Result<(), Fault> {
    let begin = report.begin()?;
    let folded = fold_without(report.alloc(), lines, tables, numbers)?;
    let micros = report.micros_since(begin)?;
    let rows = count_written(folded.tables.as_slice());
    report.say(
        micros,
        format_args!(
            "{what}: {} left, {rows} entries written",
            folded.lines.len()
        ),
    )
}

/// Shows the tree of the oldest backup, out of the tables of all, which are given and left the oldest first.
fn measure_whole(
    report: &Report,
    what: &'static str,
    tables: &mut Vec<Table>,
) -> Result<(), Fault> {
    tables.reverse();
    let begin = report.begin()?;
    let tree = whole(report.alloc(), tables.as_slice())?;
    let micros = report.micros_since(begin)?;
    tables.reverse();
    report.say(micros, format_args!("{what}: {} rows", tree.len()))
}

/// Reads the tables of all backups, which have all files, shows the tree of the oldest, and deletes of them the oldest but one;
/// ten neighbours from it on; and ten from it on that stand apart.
fn measure_full(report: &Report, sizes: FoldSizes) -> Result<(), Fault> {
    let FoldSizes { backups, .. } = sizes;
    let alloc = report.alloc();
    let (mut tables, read_micros) = read_tables(report, sizes, 1)?;
    report.say(
        read_micros,
        format_args!("read all: {} tables", tables.len()),
    )?;
    measure_whole(report, "whole of all", &mut tables)?;
    let lines = lines_of(alloc, backups)?;
    let (lines, tables) = (lines.as_slice(), tables.as_slice());
    delete(report, "fold", lines, tables, &[1])?;
    let neighbours = numbers_by(alloc, 10, 1, backups)?;
    delete(
        report,
        "fold neighbours",
        lines,
        tables,
        neighbours.as_slice(),
    )?;
    let apart = numbers_by(alloc, 10, (backups / 10).max(2), backups)?;
    delete(report, "fold apart", lines, tables, apart.as_slice())
}

/// Reads tables of which twenty neighbours have no path in common, shows the tree of the oldest, and deletes every second of them.
fn measure_sparse(report: &Report, sizes: FoldSizes) -> Result<(), Fault> {
    let FoldSizes { backups, .. } = sizes;
    let (mut tables, read_micros) = read_tables(report, sizes, 20)?;
    report.say(
        read_micros,
        format_args!("read sparse: {} tables", tables.len()),
    )?;
    measure_whole(report, "whole of sparse", &mut tables)?;
    let lines = lines_of(report.alloc(), backups)?;
    let seconds = numbers_by(report.alloc(), backups, 2, backups)?;
    delete(
        report,
        "fold seconds",
        lines.as_slice(),
        tables.as_slice(),
        seconds.as_slice(),
    )
}

/// Measures deletions, over tables of all files and over such as have few.
pub fn measure(report: &Report, sizes: FoldSizes) -> Result<(), Fault> {
    measure_full(report, sizes)?;
    measure_sparse(report, sizes)
}
